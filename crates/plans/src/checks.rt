// Checks of a whole record.
ghost use Rattle.std.specs.Prelude.{◌≡◌, ◌<◌, map, length, IfSome, is_ok, Ok, Decides};
ghost use Rattle.plans.specs.Row.{items};
ghost use Rattle.plans.specs.Reads.{on_ok, Gives};
ghost use Rattle.plans.specs.Record.{first_below, repeats, unordered, checked};
ghost use Rattle.plans.specs.Repeat.{Repeat};
ghost use Rattle.plans.specs.Laws.{LawsOfRecords};
ghost use Rattle.plans.specs.Orders.{LawsOfPlans};
ghost use Rattle.plans.specs.Terms.{RecordOf};
ghost use Rattle.plans.specs.Decoded.{Finds, FindsLink, tasks_of, links_of, ends_of, shown};

use crate::decode::read_record;
use crate::ends::Ends;
use crate::fault::{Fault, Kind};
use crate::link::Joined;
use crate::record::Record;
use crate::repeat::repeat;
use crate::room::Row;
use crate::shapes::{Link, Params};
use crate::task::Task;
use crate::tasks::Tasks;

impl Tasks {
    // A task by its number, where there is one.
    pub(crate) fn get(&self, task: usize) -> Option<Task>
        ensures { Finds (tasks_of self.now) task result }
    {
        let Params { each, .. } = *self.each.items().get(task)?;
        Some(Task { params: each })
    }
}

// The first ends that equal earlier ones.
fn ends_repeat(ends: &[Ends]) -> Option<usize>
    ensures { Repeat (λ a b. a ≡ b) ends.now result }
{
    repeat(ends)
}

impl Record {
    // The ends of the links, copied since the search for a repeat is lent a slice and libraries have no heap.
    fn ends(&self) -> Row<Ends, 64>
        ensures { items result ≡ map ends_of (links_of self.now) }
    {
        let mut ends = Row::first([Ends::NONE; 64], 0);
        for link in self.links.items() {
            // there is room, since a record has no more links
            let _ = ends.push(link.ends);
        }
        ends
    }

    // The first link with the ends of an earlier one.
    fn repeated(&self) -> Option<usize>
        ensures value { result ≡ first_below (repeats (links_of self.now)) (length (links_of self.now)) }
        ensures within { IfSome result (λ j. j < length (links_of self.now)) }
    {
        let ends = self.ends();
        ends_repeat(ends.items())
    }

    // A link by its number, with its two tasks, where there is one.
    pub(crate) fn joined(&self, link: usize) -> Option<Joined>
        ensures { FindsLink (tasks_of self.now.tasks) (links_of self.now) link result }
    {
        let Link { ends, rules, .. } = *self.links.items().get(link)?;
        let from = self.tasks.get(ends.from.task)?;
        let to = self.tasks.get(ends.to.task)?;
        Some(Joined {
            from,
            to,
            each: rules,
        })
    }

    // The first link whose targets are out of order.
    fn unordered(&self) -> Option<usize>
        ensures value { result ≡ first_below (unordered (tasks_of self.now.tasks) (links_of self.now)) (length (links_of self.now)) }
        ensures within { IfSome result (λ j. j < length (links_of self.now)) }
    {
        // by number, since a link is found with its two tasks by its number
        for j in 0..self.links.items().len() {
            if !self.joined(j)?.in_order() {
                return Some(j);
            }
        }
        None
    }
}

// The parts of a record, or its first fault.
pub(crate) fn decode(bytes: &[u8]) -> Result<Record, Fault>
    ensures { Gives shown (checked bytes.now) result }
{
    let record = read_record(bytes)?;
    if let Some(link) = record.repeated() {
        return Err(Kind::Repeated.at(record.links.items()[link].begins));
    }
    if let Some(link) = record.unordered() {
        return Err(Kind::Order.at(record.links.items()[link].begins));
    }
    Ok(record)
}

// Whether bytes are a packed record, or the one fault that counts. They are accepted exactly if they describe a
// restricted parametrized partial order.
pub fn check(bytes: &[u8]) -> Result<(), Fault>
    ensures accepted { Decides (is_ok result) (RecordOf bytes.now) }
    ensures value { result ≡ on_ok (checked bytes.now) (λ _. Ok tt) }
    ensures records { LawsOfRecords }
    ensures plans { LawsOfPlans }
{
    decode(bytes)?;
    Ok(())
}
