// The parts of a record: plain values, as they are read.
use crate::ends::Ends;
use crate::param::Param;
use crate::rule::Rule;

// Four parameters: those of a task, of which there are `used`, and behind them ones that run from 0 to 0. All four are
// counted and walked.
#[derive(Clone, Copy)]
pub struct Params {
    pub each: [Param; 4],
    pub used: usize,
}

// A link, with the bit at which it begins. A rule for a parameter that the to task does not use gives 0.
#[derive(Clone, Copy)]
pub struct Link {
    pub ends: Ends,
    pub rules: [Rule; 4],
    pub begins: u128,
}

// A byte of a name.
#[derive(Clone, Copy)]
pub struct Letter {
    pub code: u8,
}

// A name by the index of its first byte and its length.
#[derive(Clone, Copy)]
pub struct Name {
    pub at: usize,
    pub length: usize,
}

// How many tasks and links there are.
#[derive(Clone, Copy)]
pub struct Counts {
    pub tasks: usize,
    pub links: usize,
}

// What fills the room behind the parts that a record has.
impl Param {
    pub(crate) const NONE: Param = Param {
        low: 0,
        high: 0,
        down: false,
    };
}

impl Params {
    pub(crate) const NONE: Params = Params {
        each: [Param::NONE; 4],
        used: 0,
    };
}

impl Rule {
    pub(crate) const NONE: Rule = Rule {
        pick: None,
        add: 0,
        divisor: 1,
    };
}

impl Link {
    pub(crate) const NONE: Link = Link {
        ends: Ends::NONE,
        rules: [Rule::NONE; 4],
        begins: 0,
    };
}

impl Letter {
    pub(crate) const NONE: Letter = Letter { code: 0 };
}

impl Name {
    pub(crate) const NONE: Name = Name { at: 0, length: 0 };
}
