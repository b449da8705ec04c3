// A guard that puts a table back.
ghost use Rattle.std.specs.Prelude.{◌≡◌};

use crate::table::Table;

// Holds a table that is played in, and what it held before.
pub(crate) struct Guard<'a> {
    pub(crate) table: &'a mut Table,
    pub(crate) saved: Table,
}

impl Drop for Guard<'_> {
    // The table is as it was before.
    fn drop(self)
        ensures { self.exit.0.now ≡ self.entry.saved }
    {
        *self.table = self.saved;
        let Guard { table: _, saved: _ } = self;
    }
}
