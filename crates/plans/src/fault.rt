// Why a record is no plan.
ghost use Rattle.std.specs.Prelude.{◌≡◌};
ghost use Rattle.plans.specs.Faults.{number_of, place_of};
ghost use Rattle.plans.specs.declared.fault.Fault.TheVariants.{Bits, Record};

// What is wrong with a record, by number.
#[derive(Clone, Copy)]
pub enum Kind {
    // the record ends within a field
    Ended = 1,
    // the form is not 1
    Form = 2,
    // the task count is not 1 to 32, or the link count is over 64
    Counts = 3,
    // a parameter count is over 4, or a low is above its high
    Params = 4,
    // a task has over 65,536 words
    Words = 5,
    // an end of a link is in no task, or both are in one
    Ends = 6,
    // a pick is neither a parameter of the from task nor 4, or a divisor is 0
    Rule = 7,
    // an earlier link has the same ends
    Repeated = 8,
    // the targets of a link break the order rule
    Order = 9,
    // the padding is set, a name's length or byte is out of range, or something follows the end
    Text = 10,
}

// The one fault of a record that counts.
#[derive(Clone, Copy)]
pub enum Fault {
    // the bit reader's fault, whole: the record ends within a field
    Bits(bits::Fault),
    // any other, with the first bit of the field, task or link that is at fault
    Record { kind: Kind, at: u128 },
}

impl Kind {
    // The fault of this kind at a bit.
    pub(crate) fn at(self, at: u128) -> Fault
        ensures { result ≡ Record self at }
    {
        Fault::Record { kind: self, at }
    }
}

impl Fault {
    // The number of the fault's kind.
    pub fn number(&self) -> u8
        ensures { result ≡ number_of self.now }
    {
        match self {
            Fault::Bits(_) => Kind::Ended as u8,
            Fault::Record { kind, .. } => *kind as u8,
        }
    }

    // The bit that the fault names.
    pub fn place(&self) -> u128
        ensures { result ≡ place_of self.now }
    {
        match self {
            Fault::Bits(fault) => fault.at,
            Fault::Record { at, .. } => *at,
        }
    }
}

impl From<bits::Fault> for Fault {
    ghost from_gives = { λ e r. r ≡ Bits e };

    fn from(e: bits::Fault) -> Fault {
        Fault::Bits(e)
    }
}
