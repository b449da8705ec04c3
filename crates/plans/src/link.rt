// A link's target at a word.
ghost use Rattle.std.specs.Prelude.{◌≡◌, ◌<◌, ◌≤◌, length};
ghost use Rattle.plans.specs.Targets.{quotient, sum, value_for, target_at, Divide};

use crate::param::Param;
use crate::rule::Rule;
use crate::task::Task;
use crate::word::{Value, Word, push, values_of, word_of};

// The two tasks that a link joins, and its rules for the four parameters of a target.
#[derive(Clone, Copy)]
pub struct Joined {
    pub(crate) from: Task,
    pub(crate) to: Task,
    pub(crate) each: [Rule; 4],
    ghost four: { length each ≡ 4 },
    ghost divide: { Divide each },
}

// The quotient of a sum and a divisor, which is 1 in most links. That a rule divides is a fact of the links of a record
// and not of the rule, so that descriptions and the reader make a rule of plain numbers.
fn quotient_of(sum: i32, divisor: u8) -> i32
    requires { 0 < divisor }
    ensures { result ≡ quotient sum divisor }
{
    if divisor == 1 {
        sum
    } else {
        sum / i32::from(divisor)
    }
}

impl Rule {
    // What the divisor divides, from the four values of the word that the link goes from.
    fn sum(&self, values: [Value; 4]) -> i32
        ensures { result ≡ sum self.now values }
    {
        let source = match self.pick {
            Some(pick) => values.get(usize::from(pick)).copied().unwrap_or(0),
            None => 0,
        };
        i32::from(source) + i32::from(self.add)
    }

    // The value of a target's parameter.
    fn value_for(&self, param: &Param, values: [Value; 4]) -> Option<Value>
        requires { 0 < self.now.divisor }
        ensures { result ≡ value_for self.now param.now values }
    {
        param.in_range(quotient_of(self.sum(values), self.divisor))
    }
}

impl Joined {
    // The target at a word.
    #[inline(always)]
    pub(crate) fn target_at(&self, word: Word) -> Option<Word>
        ensures { result ≡ target_at self.now.from.params self.now.to.params self.now.each word }
    {
        self.from.place_of(word)?;
        let values = values_of(word);
        let mut target = [0; 4];
        for (rule, param) in self.each.iter().zip(&self.to.params) {
            target = push(target, rule.value_for(param, values)?);
        }
        Some(word_of(target))
    }
}
