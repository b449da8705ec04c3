// The tasks of a record.
ghost use Rattle.plans.specs.Row.{items};
ghost use Rattle.plans.specs.Accepted.{Good};

use crate::room::Row;
use crate::shapes::Params;

#[derive(Clone, Copy)]
pub struct Tasks {
    pub(crate) each: Row<Params, 32>,
    ghost good: { Good (items each) },
}
