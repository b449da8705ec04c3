// Runs over any plan source.
#![tactic(auto)]

mod calls;
mod checks;
mod guard;
mod lent;
mod list;
mod phase;
mod play;
mod player;
mod refusal;
mod routes;
mod run;
mod table;
mod task_set;

pub use calls::{Answer, Call};
pub use lent::List;
pub use phase::{NoPhase, Phase};
pub use refusal::{Outcome, Refusal};
pub use run::{Run, replay};
