// Entering events in a table and taking them out.
ghost use Rattle.std.specs.Prelude.{◌≡◌, ◌<◌};
ghost use Rattle.plans.specs.Plan.{task_count};
ghost use Rattle.runs.specs.Slots.{opened, entered, post_by, posted_by, take_back_by, taken_back_by};
ghost use Rattle.runs.specs.Play.{all_done};

use crate::checks::View;
use crate::refusal::Refusal;
use crate::table::{Slot, Table};
use plans::{Event, Side, Source};
use std::array;

impl Table {
    // The table of a run with no event standing: each task's first word. A source is asked of its own tasks alone.
    pub(crate) fn opened<S: Source>(source: &S) -> Table
        ensures { result.slots ≡ opened (S.plan source.now) }
    {
        let tasks = source.task_count();
        let slots = array::from_fn(|task| {
            if task >= tasks {
                return Slot::new(0);
            }
            let word = source.word_at(task, 0).unwrap_or(0);
            Slot::new(word)
        });
        Table { slots }
    }

    // Enters an accepted event in its task's slot. An accepted one is of a task below 64: a test here would be of what is known.
    pub(crate) fn enter<S: Source>(&mut self, source: &S, event: Event)
        requires { event.task < 64 }
        ensures { self.new.slots ≡ entered (S.plan source.now) self.old.slots event }
    {
        let slot = &mut self.slots[event.task];
        match event.side {
            Side::Start => slot.begin(),
            Side::Finish => {
                let next = source.next_word(event.task, slot.word);
                slot.end(next);
            }
        }
    }

    // Posts an event where its checks allow it.
    pub(crate) fn post<S: Source>(&mut self, source: &S, event: Event) -> Result<(), Refusal>
        ensures reply { result ≡ post_by (S.plan source.now) self.old.slots event }
        ensures slots { self.new.slots ≡ posted_by (S.plan source.now) self.old.slots event }
    {
        let view = View {
            source,
            table: self,
        };
        view.check_post(event)?;
        self.enter(source, event);
        Ok(())
    }

    // Takes an event back where its checks allow it.
    pub(crate) fn take_back<S: Source>(&mut self, source: &S, event: Event) -> Result<(), Refusal>
        ensures reply { result ≡ take_back_by (S.plan source.now) self.old.slots event }
        ensures slots { self.new.slots ≡ taken_back_by (S.plan source.now) self.old.slots event }
    {
        let view = View {
            source,
            table: self,
        };
        view.check_take_back(event)?;
        self.slots[event.task].undo(event.side, event.word);
        Ok(())
    }
}

// Whether every task is done.
pub(crate) fn finished<S: Source>(source: &S, table: &Table) -> bool
    ensures { result ≡ all_done table.now.slots (task_count (S.plan source.now)) }
{
    let tasks = source.task_count();
    table.slots[..tasks].iter().all(|slot| slot.done)
}
