// The table of a run: one slot for each task.
ghost use Rattle.std.specs.Prelude.{◌≡◌};
ghost use Rattle.runs.specs.Slots.{fresh, started, finished, undone, row as row_of, slot_event, progress};
ghost use Rattle.runs.specs.Phase.{byte_of};

use crate::phase::Phase;
use plans::{Event, Side, Word};

// What a run keeps of one task: a word, and whether its start stands without its finish, or all stands.
// Its form is a rule of the project: one word and two flags, and no enum with the word in it.
#[derive(Clone, Copy)]
pub struct Slot {
    pub(crate) word: Word,
    pub(crate) running: bool,
    pub(crate) done: bool,
}

// A slot for each task that a plan can have.
#[derive(Clone, Copy)]
pub struct Table {
    pub(crate) slots: [Slot; 64],
}

impl Slot {
    // The slot of a task of which no event stands, by its first word.
    pub(crate) fn new(word: Word) -> Slot
        ensures { result ≡ fresh word }
    {
        Slot {
            word,
            running: false,
            done: false,
        }
    }

    // The start of the slot's word is posted.
    pub(crate) fn begin(&mut self)
        ensures { self.new ≡ started self.old }
    {
        self.running = true;
    }

    // The finish of the slot's word is posted; `next` is the word one place later.
    pub(crate) fn end(&mut self, next: Option<Word>)
        ensures { self.new ≡ finished self.old next }
    {
        self.running = false;
        match next {
            Some(word) => self.word = word,
            None => self.done = true,
        }
    }

    // The last standing event of the slot's task, at `word`, is taken back.
    pub(crate) fn undo(&mut self, side: Side, word: Word)
        ensures { self.new ≡ undone side word }
    {
        self.word = word;
        self.running = match side {
            Side::Start => false,
            Side::Finish => true,
        };
        self.done = false;
    }

    // How far the slot's task is.
    pub(crate) fn phase(&self) -> Phase
        ensures { byte_of result ≡ progress self.now }
    {
        if self.done {
            Phase::Done
        } else if self.running {
            Phase::Running
        } else {
            Phase::Waiting
        }
    }

    // The slot's bytes in the state table.
    pub(crate) fn row(&self) -> [u8; 5]
        ensures { result ≡ row_of self.now }
    {
        let [a, b, c, d] = self.word.to_be_bytes();
        [a, b, c, d, self.phase() as u8]
    }

    // The event to come of the slot's task.
    pub(crate) fn event(&self, task: usize) -> Option<Event>
        ensures { result ≡ slot_event task self.now }
    {
        if self.done {
            return None;
        }
        let side = if self.running {
            Side::Finish
        } else {
            Side::Start
        };
        Some(Event {
            task,
            side,
            word: self.word,
        })
    }
}
