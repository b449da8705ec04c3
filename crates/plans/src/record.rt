// The parts of a whole record.
ghost use Rattle.std.specs.Prelude.{◌≡◌, true, length};
ghost use Rattle.plans.specs.Row.{items};
ghost use Rattle.plans.specs.Accepted.{good_links};

use crate::room::Row;
use crate::shapes::{Link, Name};
use crate::tasks::Tasks;

// Tasks, links between them, and a name for each task.
#[derive(Clone, Copy)]
pub struct Record {
    pub(crate) tasks: Tasks,
    pub(crate) links: Row<Link, 64>,
    pub(crate) names: Row<Name, 32>,
    ghost all_named: { length (items names) ≡ length (items tasks.each) },
    ghost good: { good_links (length (items tasks.each)) (items links) ≡ true },
}
