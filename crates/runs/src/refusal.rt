// Why a call is refused, and what a verdict says.
ghost use Rattle.std.specs.Prelude.{◌≡◌};
ghost use Rattle.runs.specs.Refusals.{number_of};
ghost use Rattle.runs.specs.declared.refusal.Refusal.TheVariants.{NoRoom};

use plans::Full;

// Why a call is refused, by number.
#[derive(Clone, Copy)]
pub enum Refusal {
    // the plan has no such task
    NoTask = 20,
    // the task has no such word
    NoWord = 21,
    // the event to post stands
    Stands = 22,
    // something that the event to post rests on does not stand
    Waits = 23,
    // the event to take back is not standing
    Absent = 24,
    // a standing event rests on the one to take back
    RestedOn = 25,
    // what is asked for does not fit in the room
    NoRoom = 26,
    // more events can be posted than the budget
    OverBudget = 27,
    // the plan has no tasks
    NoTasks = 28,
}

impl Refusal {
    // The number of the refusal.
    pub fn number(self) -> u8
        ensures { result ≡ number_of self }
    {
        self as u8
    }
}

// A list that is full has no room.
impl From<Full> for Refusal {
    ghost from_gives = { λ _ e. e ≡ NoRoom };

    fn from(_full: Full) -> Refusal {
        Refusal::NoRoom
    }
}

// What playing the remaining events comes to, with their number.
#[derive(Clone, Copy)]
pub enum Outcome {
    // every event of the plan then stands
    Finishes(u32),
    // some event does not, and none is ready
    DeadEnd(u32),
}
