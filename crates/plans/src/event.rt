// Events of a plan.
use crate::ends::Side;
use crate::word::Word;

// The start or the finish of a task at one of its words.
#[derive(Clone, Copy)]
pub struct Event {
    pub task: usize,
    pub side: Side,
    pub word: Word,
}
