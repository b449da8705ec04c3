// Pipelines: a plan source that stores nothing. It serves as the example of how to write one.
#![tactic(auto)]

ghost use Rattle.std.specs.Prelude.{◌≡◌, ◌≤◌, ◌&&◌, min, max, nat_lt, if◌then◌else◌};
ghost use Rattle.plans.specs.Plan.{Keeps, kept};
ghost use Rattle.pipeline.specs.Pipeline.{goes_on, pipeline_plan};

use plans::{Ends, EventType, Side, Source, Word};

// Tasks in a row, each repeated over the same words. A task waits for the one before it, word by word, and may run so many words
// ahead of the next. That the plan keeps the rules of plans is part of the type.
#[derive(Clone, Copy)]
pub struct Pipeline {
    tasks: usize,
    words: u32,
    ahead: u32,
    ghost few: { tasks ≤ 64 },
    ghost some: { 1 ≤ words },
    ghost limit: { words ≤ 65536 },
    ghost keeps: { ∥ Keeps (pipeline_plan tasks words ahead) ∥₁ },
}

impl Pipeline {
    // More than 64 tasks count as 64; 0 words count as 1, and more than 65,536 as 65,536.
    pub fn new(tasks: usize, words: u32, ahead: u32) -> Pipeline
        ensures tasks { result.tasks ≡ min tasks 64 }
        ensures words { result.words ≡ max 1 (min words 65536) }
        ensures ahead { result.ahead ≡ ahead }
    {
        Pipeline {
            tasks: tasks.min(64),
            words: words.clamp(1, 65_536),
            ahead,
        }
    }

    // A word is its own place: the number itself, where the task has it.
    fn known(&self, task: usize, word: u32) -> Option<u32>
        ensures { result ≡ (if nat_lt task self.now.tasks && nat_lt word self.now.words then Some word else None) }
    {
        (task < self.tasks && word < self.words).then_some(word)
    }
}

// Whether a link goes on to the next task; else it goes back.
fn goes_on(link: usize) -> bool
    ensures { result ≡ goes_on link }
{
    link % 2 == 0
}

#[tactic(auto, using(crate::proofs::Replies::replies))]
impl Source for Pipeline {
    ghost plan = { λ p. pipeline_plan p.tasks p.words p.ahead };

    ghost keeps = { λ p. kept p.keeps };

    fn task_count(&self) -> usize {
        self.tasks
    }

    fn word_count(&self, task: usize) -> Option<u32> {
        (task < self.tasks).then_some(self.words)
    }

    fn word_at(&self, task: usize, place: u32) -> Option<Word> {
        self.known(task, place)
    }

    fn place_of(&self, task: usize, word: Word) -> Option<u32> {
        self.known(task, word)
    }

    fn next_word(&self, task: usize, word: Word) -> Option<Word> {
        self.known(task, word.checked_add(1)?)
    }

    // Two for each pair of neighbours.
    fn link_count(&self) -> usize {
        2 * self.tasks.saturating_sub(1)
    }

    fn ends(&self, link: usize) -> Option<Ends> {
        if link >= self.link_count() {
            return None;
        }
        let task = link / 2;
        let (from, to) = if goes_on(link) {
            (task, task + 1)
        } else {
            (task + 1, task)
        };
        Some(Ends {
            from: EventType {
                task: from,
                side: Side::Finish,
            },
            to: EventType {
                task: to,
                side: Side::Start,
            },
        })
    }

    // A link that goes on gives the same word, one that goes back the word so many further on.
    fn target(&self, link: usize, word: Word) -> Option<Word> {
        if link >= self.link_count() || word >= self.words {
            return None;
        }
        let shift = if goes_on(link) { 0 } else { self.ahead };
        (shift < self.words - word).then(|| word + shift)
    }
}
