// A run on any plan source.
ghost use Rattle.std.specs.Prelude.{◌≡◌, ℕ, ◌+◌, ◌-◌, ◌*◌, ◌≤◌, true, false, [], map, length, take, drop, is_ok, ◌≢◌};
ghost use Rattle.plans.specs.Row.{items};
ghost use Rattle.plans.specs.Plan.{task_count};
ghost use Rattle.runs.specs.declared.calls.Call.TheVariants.{Post, TakeBack, ReadyList, StateTable, Verdict};
ghost use Rattle.runs.specs.Calls.{lists, fills, standing, replies};
ghost use Rattle.runs.specs.Laws.{LawsOfRuns};
ghost use Rattle.runs.specs.Shows.{Shows, Performs, AnswersAll, told, judged, written, said, room_for};
ghost use Rattle.runs.specs.Lent.{added, Adds};
ghost use Rattle.runs.specs.Slots.{slot_of, ready_to};

use crate::calls::{Answer, Call};
use crate::checks::View;
use crate::guard::Guard;
use crate::lent::List;
use crate::play::finished;
use crate::player::play;
use crate::refusal::{Outcome, Refusal};
use crate::table::Table;
use plans::{Event, Row, Side, Source};

// A run: a plan source, and what stands of its plan.
#[derive(Drop)]
pub struct Run<S: Source> {
    source: S,
    table: Table,
}

impl<S: Source> Run<S> {
    // A run with no event standing.
    pub fn open(source: S) -> Run<S>
        ensures source { result.source ≡ source }
        ensures empty { Shows (S.plan source) result.table.slots (standing (S.plan source) []) }
        ensures laws { LawsOfRuns (S.plan source) }
    {
        let table = Table::opened(&source);
        Run { source, table }
    }

    // Posts an event; a refused one changes nothing.
    pub fn post(&mut self, event: Event) -> Result<(), Refusal>
        ensures performed { Performs S.plan self.old (Post event) (told result) self.new }
        ensures others { (t : ℕ) → (t ≢ event.task) → slot_of self.new.table.slots t ≡ slot_of self.old.table.slots t }
    {
        self.table.post(&self.source, event)
    }

    // Takes an event back; a refused take-back changes nothing.
    pub fn take_back(&mut self, event: Event) -> Result<(), Refusal>
        ensures performed { Performs S.plan self.old (TakeBack event) (told result) self.new }
        ensures others { (t : ℕ) → (t ≢ event.task) → slot_of self.new.table.slots t ≡ slot_of self.old.table.slots t }
    {
        self.table.take_back(&self.source, event)
    }

    // The ready events, by task number.
    fn found(&self) -> Row<Event, 64>
        ensures { items result ≡ ready_to (S.plan self.now.source) self.now.table.slots (task_count (S.plan self.now.source)) }
    {
        let none = Event {
            task: 0,
            side: Side::Start,
            word: 0,
        };
        let mut found = Row::first([none; 64], 0);
        let view = View {
            source: &self.source,
            table: &self.table,
        };
        // by number, as a source is asked; a row has no collect, since it may be full
        for task in 0..self.source.task_count() {
            if let Some(event) = view.ready_event(task) {
                found.push(event).unwrap();
            }
        }
        found
    }

    // Adds the ready events, by task number, to a list.
    pub fn ready(&self, out: &mut List<'_, Event>) -> Result<(), Refusal>
        ensures performed { Performs S.plan self.now (ReadyList (length out.old.room.now - out.old.len)) (written result (lists (added out.old out.new))) self.now }
        ensures list { Adds (is_ok result) out.old out.new }
    {
        let found = self.found();
        out.append(found.items())?;
        Ok(())
    }

    // Writes five bytes a task.
    pub fn state_table(&self, out: &mut [u8]) -> Result<(), Refusal>
        ensures performed { Performs S.plan self.now (StateTable (length out.old)) (written result (fills (take (5 * task_count (S.plan self.now.source)) out.new))) self.now }
        ensures beyond { drop (5 * task_count (S.plan self.now.source)) out.new ≡ drop (5 * task_count (S.plan self.now.source)) out.old }
        ensures refused { is_ok result ≡ false → out.new ≡ out.old }
    {
        let tasks = self.source.task_count();
        if out.len() < 5 * tasks {
            return Err(Refusal::NoRoom);
        }
        let mut rows = List::new(out);
        for slot in &self.table.slots[..tasks] {
            rows.append(&slot.row())?;
        }
        Ok(())
    }

    // Plays on to the end, in the run's table, and puts the table back however that comes out.
    pub fn verdict(&mut self, budget: u32) -> Result<Outcome, Refusal>
        ensures performed { Performs S.plan self.old (Verdict budget) (judged result) self.new }
        ensures same { self.new ≡ self.old }
    {
        if self.source.task_count() == 0 {
            return Err(Refusal::NoTasks);
        }
        let saved = self.table;
        let guard = Guard {
            table: &mut self.table,
            saved,
        };
        let count = play(&self.source, &mut *guard.table, budget)?;
        if finished(&self.source, &*guard.table) {
            Ok(Outcome::Finishes(count))
        } else {
            Ok(Outcome::DeadEnd(count))
        }
    }

    // Performs any call; a refused one changes nothing.
    fn perform(&mut self, call: Call) -> Result<Answer, Refusal>
        ensures performed { Performs S.plan self.old call (said result) self.new }
    {
        match call {
            Call::Post(event) => {
                self.post(event)?;
                Ok(Answer::Accepted)
            }
            Call::TakeBack(event) => {
                self.take_back(event)?;
                Ok(Answer::Accepted)
            }
            Call::ReadyList(room) => {
                let found = self.found();
                if (room as usize) < found.items().len() {
                    return Err(Refusal::NoRoom);
                }
                Ok(Answer::Listed(found))
            }
            Call::StateTable(room) => {
                let len = 5 * self.source.task_count();
                if (room as usize) < len {
                    return Err(Refusal::NoRoom);
                }
                let mut bytes = [0u8; 320];
                self.state_table(&mut bytes)?;
                Ok(Answer::Filled(Row::first(bytes, len)))
            }
            Call::Verdict(budget) => Ok(Answer::Played(self.verdict(budget)?)),
        }
    }

    // Performs calls one after another and adds their answers to a list; nothing is done where the list has too few free entries.
    fn perform_all(
        &mut self,
        calls: &[Call],
        out: &mut List<'_, Result<Answer, Refusal>>,
    ) -> Result<(), Refusal>
        ensures answers { is_ok result ≡ true → AnswersAll (S.plan self.old.source) self.old.table.slots calls.now (map said (added out.old out.new)) self.new.table.slots }
        ensures enough { result ≡ room_for (out.old.len + length calls.now) (length out.old.room.now) }
        ensures refused { is_ok result ≡ false → self.new ≡ self.old }
        ensures source { self.new.source ≡ self.old.source }
        ensures list { Adds (is_ok result) out.old out.new }
    {
        if out.free() < calls.len() {
            return Err(Refusal::NoRoom);
        }
        for call in calls {
            let answer = self.perform(*call);
            out.push(answer)?;
        }
        Ok(())
    }
}

// Performs any list of calls on a new run on the source, from its opening, and adds the answers to a list.
// This is the whole promise of runs: the defined replies, and the laws of every list of calls on the source's plan.
pub fn replay<S: Source + Drop>(
    source: S,
    calls: &[Call],
    out: &mut List<'_, Result<Answer, Refusal>>,
) -> Result<(), Refusal>
    ensures replied { is_ok result ≡ true → map said (added out.old out.new) ≡ replies (S.plan source) calls.now }
    ensures laws { LawsOfRuns (S.plan source) }
    ensures enough { result ≡ room_for (out.old.len + length calls.now) (length out.old.room.now) }
    ensures list { Adds (is_ok result) out.old out.new }
{
    let mut run = Run::open(source);
    run.perform_all(calls, out)
}
