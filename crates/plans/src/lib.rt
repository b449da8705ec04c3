// Plans of tasks that are repeated over parameters.
#![tactic(auto)]

mod checks;
mod decode;
mod ends;
mod event;
mod fault;
mod link;
mod links;
mod order;
mod packed;
mod packing;
mod param;
mod parts;
mod read;
mod record;
mod repeat;
mod room;
mod row;
mod rule;
mod shapes;
mod source;
mod task;
mod tasks;
mod text;
mod word;

pub use checks::check;
pub use ends::{Ends, EventType, Side};
pub use event::Event;
pub use fault::{Fault, Kind};
pub use packed::Packed;
pub use param::Param;
pub use room::Row;
pub use row::Full;
pub use rule::Rule;
pub use shapes::{Link, Params};
pub use source::Source;
pub use word::{Value, Word};
