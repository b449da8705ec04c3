// What a post and a take-back look for, in a source and a table.
ghost use Rattle.std.specs.Prelude.{◌≡◌, ◌<◌, true, is_ok};
ghost use Rattle.plans.specs.Plan.{link_count};
ghost use Rattle.plans.specs.Orders.{type_of};
ghost use Rattle.runs.specs.Slots.{rank as rank_of, slot_count, next_of, link_met_by, links_met_by, link_free_by, links_free_by, post_by, take_back_by, ready_of, known_by, given_by};
ghost use Rattle.runs.specs.Limit.{link_bound};

use crate::refusal::Refusal;
use crate::table::{Slot, Table};
use plans::{Event, EventType, Side, Source, Word};

// A source and what stands of its plan, both lent.
#[derive_where(Clone, Copy)]
pub(crate) struct View<'a, S> {
    pub(crate) source: &'a S,
    pub(crate) table: &'a Table,
}

// Of an event that the plan has: the place of its word, how many events of its task come before it, and how many of them stand.
#[derive(Clone, Copy)]
pub(crate) struct Known {
    place: u32,
    at: u32,
    count: u32,
}

// The type of an event.
fn type_of(event: Event) -> EventType
    ensures { result ≡ type_of event }
{
    EventType {
        task: event.task,
        side: event.side,
    }
}

// How many events of its task come before an event of a side at a place.
fn rank(place: u32, side: Side) -> u32
    requires { place < 65536 }
    ensures { result ≡ rank_of place side }
{
    match side {
        Side::Start => 2 * place,
        Side::Finish => 2 * place + 1,
    }
}

impl<S: Source> View<'_, S> {
    // The word of the next event of a type, by its task's slot; nothing where all of them stand.
    fn next_word_of(&self, events: EventType, slot: Slot) -> Option<Word>
        ensures { result ≡ next_of (S.plan self.now.source.now) events.task events.side slot }
    {
        if slot.done {
            return None;
        }
        match events.side {
            Side::Start if slot.running => self.source.next_word(events.task, slot.word),
            _ => Some(slot.word),
        }
    }

    // How many events of a task stand, by its slot.
    fn count_of(&self, task: usize, slot: Slot) -> u32
        ensures { result ≡ slot_count (S.plan self.now.source.now) task slot }
    {
        match self.source.place_of(task, slot.word) {
            Some(place) => 2 * place + slot.phase() as u32,
            None => 0,
        }
    }

    // The place from which on a link holds back the events of a type.
    #[inline(always)]
    pub(crate) fn bound(&self, events: EventType, link: usize) -> Option<u32>
        ensures { result ≡ link_bound (S.plan self.now.source.now) self.now.table.now.slots events link }
    {
        let ends = self.source.ends(link)?;
        if ends.to != events {
            return None;
        }
        let word = self.next_word_of(ends.from, self.table.slots[ends.from.task])?;
        let target = self.source.target(link, word)?;
        self.source.place_of(events.task, target)
    }

    // Whether a link lets the event, whose word has the place, be posted.
    fn link_met(&self, event: Event, place: u32, link: usize) -> bool
        ensures { result ≡ link_met_by (S.plan self.now.source.now) self.now.table.now.slots (type_of event) place link }
    {
        self.bound(type_of(event), link).is_none_or(|at| place < at)
    }

    // Whether every link does.
    fn links_met(&self, event: Event, place: u32) -> bool
        ensures { result ≡ links_met_by (S.plan self.now.source.now) self.now.table.now.slots (type_of event) place (link_count (S.plan self.now.source.now)) }
    {
        (0..self.source.link_count()).all(|link| self.link_met(event, place, link))
    }

    // What is known of an event, or that the plan does not have it.
    fn known(&self, event: Event) -> Result<Known, Refusal>
        ensures { result ≡ known_by (S.plan self.now.source.now) self.now.table.now.slots event }
    {
        let Event { task, side, word } = event;
        if task >= self.source.task_count() {
            return Err(Refusal::NoTask);
        }
        let place = self.source.place_of(task, word).ok_or(Refusal::NoWord)?;
        let count = self.count_of(task, self.table.slots[task]);
        let at = rank(place, side);
        Ok(Known { place, at, count })
    }

    // The answer to a post.
    pub(crate) fn check_post(&self, event: Event) -> Result<(), Refusal>
        ensures reply { result ≡ post_by (S.plan self.now.source.now) self.now.table.now.slots event }
        ensures known { is_ok result ≡ true → event.task < 64 }
    {
        let Known { place, at, count } = self.known(event)?;
        if at < count {
            return Err(Refusal::Stands);
        }
        if at == count && self.links_met(event, place) {
            Ok(())
        } else {
            Err(Refusal::Waits)
        }
    }

    // What is known of the event that a link gives from an event.
    fn given(&self, event: Event, link: usize) -> Option<Known>
        ensures { result ≡ given_by (S.plan self.now.source.now) self.now.table.now.slots (type_of event) event.word link }
    {
        let ends = self.source.ends(link)?;
        if ends.from != type_of(event) {
            return None;
        }
        let target = self.source.target(link, event.word)?;
        let EventType { task, side } = ends.to;
        let place = self.source.place_of(task, target)?;
        let count = self.count_of(task, self.table.slots[task]);
        let at = rank(place, side);
        Some(Known { place, at, count })
    }

    // Whether a link gives, from the event, no event that stands.
    fn link_free(&self, event: Event, link: usize) -> bool
        ensures { result ≡ link_free_by (S.plan self.now.source.now) self.now.table.now.slots (type_of event) event.word link }
    {
        self.given(event, link)
            .is_none_or(|known| known.count <= known.at)
    }

    // Whether no link gives one that stands.
    fn links_free(&self, event: Event) -> bool
        ensures { result ≡ links_free_by (S.plan self.now.source.now) self.now.table.now.slots (type_of event) event.word (link_count (S.plan self.now.source.now)) }
    {
        (0..self.source.link_count()).all(|link| self.link_free(event, link))
    }

    // The answer to a take-back.
    pub(crate) fn check_take_back(&self, event: Event) -> Result<(), Refusal>
        ensures reply { result ≡ take_back_by (S.plan self.now.source.now) self.now.table.now.slots event }
        ensures known { is_ok result ≡ true → event.task < 64 }
    {
        let Known { at, count, .. } = self.known(event)?;
        if at >= count {
            return Err(Refusal::Absent);
        }
        if at + 1 == count && self.links_free(event) {
            Ok(())
        } else {
            Err(Refusal::RestedOn)
        }
    }

    // The ready event of a task, or nothing.
    pub(crate) fn ready_event(&self, task: usize) -> Option<Event>
        ensures { result ≡ ready_of (S.plan self.now.source.now) self.now.table.now.slots task }
    {
        let event = self.table.slots.get(task)?.event(task)?;
        self.check_post(event).ok()?;
        Some(event)
    }
}
