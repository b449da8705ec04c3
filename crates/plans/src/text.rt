// How sides and faults print.
ghost use Rattle.std.specs.Prelude.{Some};
ghost use Rattle.plans.specs.Text.{side_text, fault_text};

use crate::ends::Side;
use crate::fault::Fault;
use std::fmt;

impl fmt::Display for Side {
    ghost output = { λ side. Some (side_text side) };

    fn fmt<W: fmt::Write>(&self, f: &mut fmt::Formatter<W>) -> fmt::Result {
        f.write_str(match self {
            Side::Start => "start",
            Side::Finish => "finish",
        })
    }
}

impl fmt::Display for Fault {
    ghost output = { λ fault. Some (fault_text fault) };

    fn fmt<W: fmt::Write>(&self, f: &mut fmt::Formatter<W>) -> fmt::Result {
        let number = self.number();
        let place = self.place();
        write!(f, "plan {number} at {place}")
    }
}
