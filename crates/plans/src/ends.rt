// Event types, and the two that a link joins.

// Which of a task's two event types: its starts or its finishes.
#[derive(Clone, Copy, PartialEq)]
pub enum Side {
    Start = 0,
    Finish = 1,
}

// A set bit stands for the finishes.
impl From<bool> for Side {
    ghost use Rattle.std.specs.Prelude.{◌≡◌, cond};
    ghost use Rattle.plans.specs.declared.ends.Side.TheVariants.{Start, Finish};

    ghost from_gives = { λ set side. side ≡ cond set Finish Start };

    fn from(set: bool) -> Side {
        if set { Side::Finish } else { Side::Start }
    }
}

// The starts, or the finishes, of a task.
#[derive(Clone, Copy, PartialEq)]
pub struct EventType {
    pub task: usize,
    pub side: Side,
}

// The event types that a link goes from and to.
#[derive(Clone, Copy, PartialEq)]
pub struct Ends {
    pub from: EventType,
    pub to: EventType,
}

impl EventType {
    // The first task's starts.
    const FIRST: EventType = EventType {
        task: 0,
        side: Side::Start,
    };
}

impl Ends {
    // Those of no link.
    pub(crate) const NONE: Ends = Ends {
        from: EventType::FIRST,
        to: EventType::FIRST,
    };
}
