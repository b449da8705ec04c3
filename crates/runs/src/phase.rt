// How far a task is, and the byte of a state table that tells it.
ghost use Rattle.std.specs.Prelude.{Some, ◌++◌, codes, decimal};
ghost use Rattle.runs.specs.Phase.{name_of, Tells};

use std::error::Error;
use std::fmt;

// How far a task is.
#[derive(Clone, Copy, Debug, PartialEq)]
pub enum Phase {
    // none of its starts stands without its finish, and some event is missing
    Waiting = 0,
    // a start stands without its finish
    Running = 1,
    // all its events stand
    Done = 2,
}

// A byte that tells no phase.
#[derive(Clone, Copy, Debug, PartialEq)]
pub struct NoPhase(pub u8);

impl TryFrom<u8> for Phase {
    type Error = NoPhase;

    ghost try_from_gives = { Tells };

    fn try_from(byte: u8) -> Result<Phase, NoPhase> {
        match byte {
            0 => Ok(Phase::Waiting),
            1 => Ok(Phase::Running),
            2 => Ok(Phase::Done),
            _ => Err(NoPhase(byte)),
        }
    }
}

impl fmt::Display for Phase {
    ghost output = { λ phase. Some (name_of phase) };

    fn fmt<W: fmt::Write>(&self, f: &mut fmt::Formatter<W>) -> fmt::Result {
        f.write_str(match self {
            Phase::Waiting => "waiting",
            Phase::Running => "running",
            Phase::Done => "done",
        })
    }
}

impl fmt::Display for NoPhase {
    ghost output = { λ no. Some (codes "no phase has byte " ++ decimal no.0) };

    fn fmt<W: fmt::Write>(&self, f: &mut fmt::Formatter<W>) -> fmt::Result {
        write!(f, "no phase has byte {}", self.0)
    }
}

impl Error for NoPhase {}
