// A parameter of a task: a range of values, run through upward or downward.
ghost use Rattle.std.specs.Prelude.{◌≡◌, ◌<◌, ◌≤◌};
ghost use Rattle.plans.specs.Words.{size, value_at, turn_of};
ghost use Rattle.plans.specs.Targets.{in_range};

use crate::word::Value;

#[derive(Clone, Copy)]
pub struct Param {
    pub low: Value,
    pub high: Value,
    pub down: bool,
}

impl Param {
    // How many values the parameter runs through.
    pub(crate) fn size(&self) -> u32
        ensures value { result ≡ size self.now }
        ensures bound { result ≤ 256 }
    {
        (u32::from(self.high) + 1).saturating_sub(u32::from(self.low))
    }

    // The value at a turn. The turn is below 256, so that `as` keeps it.
    pub(crate) fn value_at(&self, turn: u32) -> Value
        requires { turn < size self.now }
        ensures { result ≡ value_at self.now turn }
    {
        let turn = turn as Value;
        if self.down {
            self.high - turn
        } else {
            self.low + turn
        }
    }

    // The turn at which the parameter has a value.
    pub(crate) fn turn_of(&self, value: Value) -> Option<u32>
        ensures { result ≡ turn_of self.now value }
    {
        if !(self.low..=self.high).contains(&value) {
            return None;
        }
        Some(u32::from(if self.down {
            self.high - value
        } else {
            value - self.low
        }))
    }

    // A number as a value, where it lies in the range.
    pub(crate) fn in_range(&self, n: i32) -> Option<Value>
        ensures { result ≡ in_range self.now n }
    {
        if !(i32::from(self.low)..=i32::from(self.high)).contains(&n) {
            return None;
        }
        Some(n as Value)
    }
}
