// What a record's parts look like in print. Types of their own, since `Param` and `Rule` are another crate's.
use plans::{Param, Rule, Side};
use std::fmt;

// A range, as `1 to 3` or `3 down to 1`.
#[derive(Clone, Copy)]
pub struct Range(pub Param);

impl fmt::Display for Range {
    fn fmt<W: fmt::Write>(&self, f: &mut fmt::Formatter<W>) -> fmt::Result {
        let Param { low, high, down } = self.0;
        if down {
            write!(f, "{high} down to {low}")
        } else {
            write!(f, "{low} to {high}")
        }
    }
}

// What a rule divides, as `p0+2`, `p1` or `5`.
#[derive(Clone, Copy)]
struct Sum(Rule);

impl fmt::Display for Sum {
    fn fmt<W: fmt::Write>(&self, f: &mut fmt::Formatter<W>) -> fmt::Result {
        let add = self.0.add;
        match self.0.pick {
            None => write!(f, "{add}"),
            Some(pick) if add == 0 => write!(f, "p{pick}"),
            Some(pick) => write!(f, "p{pick}{add:+}"),
        }
    }
}

// A rule, as `p0` or `(p0-1)/2`.
#[derive(Clone, Copy)]
pub struct Value(pub Rule);

impl fmt::Display for Value {
    fn fmt<W: fmt::Write>(&self, f: &mut fmt::Formatter<W>) -> fmt::Result {
        let sum = Sum(self.0);
        match self.0.divisor {
            1 => write!(f, "{sum}"),
            divisor => write!(f, "({sum})/{divisor}"),
        }
    }
}

// One end of a link, as `finish ld`: printed at once, since each print is a write of its own.
#[derive(Clone, Copy)]
pub struct End<'a> {
    pub side: Side,
    pub name: &'a str,
}

impl fmt::Display for End<'_> {
    fn fmt<W: fmt::Write>(&self, f: &mut fmt::Formatter<W>) -> fmt::Result {
        let side = self.side;
        let name = self.name;
        write!(f, "{side} {name}")
    }
}
