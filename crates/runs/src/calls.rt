// The calls of a run, and their answers.
use crate::refusal::Outcome;
use plans::{Event, Row};

// A call on a run.
#[derive(Clone, Copy)]
pub enum Call {
    Post(Event),
    TakeBack(Event),
    // with room for so many events
    ReadyList(u32),
    // with room for so many bytes
    StateTable(u32),
    // with a budget of so many events
    Verdict(u32),
}

// What a call that is not refused is answered with.
#[derive(Clone, Copy)]
pub enum Answer {
    Accepted,
    // the ready events; no plan has more than 64 tasks
    Listed(Row<Event, 64>),
    // the bytes of the state table, five a task
    Filled(Row<u8, 320>),
    // the verdict
    Played(Outcome),
}
