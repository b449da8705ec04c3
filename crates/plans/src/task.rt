// A task's value words.
ghost use Rattle.std.specs.Prelude.{◌≡◌, ◌/◌, ◌%◌, ◌<◌, ◌≤◌, length, IfSome};
ghost use Rattle.plans.specs.Words.{count, most_words, Bytes, words};
ghost use Rattle.plans.specs.Lists.{place_in, after};
ghost use Rattle.std.specs.List.{slice_get};

use crate::param::Param;
use crate::word::{Word, values_of, word_of};

// The product of four parameters' sizes.
pub(crate) fn product(params: &[Param; 4]) -> u64
    ensures { result ≡ count params.now }
{
    let mut total = 1;
    for p in params {
        total *= u64::from(p.size());
    }
    total
}

// The quotient and the remainder of a number by the size of a parameter. The two cases by hand need no division.
fn split(rest: u32, turns: u32) -> (u32, u32)
    requires { 0 < turns }
    ensures quotient { result.0 ≡ rest / turns }
    ensures remainder { result.1 ≡ rest % turns }
{
    if turns == 1 {
        (rest, 0)
    } else if rest < turns {
        (0, rest)
    } else {
        (rest / turns, rest % turns)
    }
}

// A task by its four parameters. One that the task lacks runs from 0 to 0.
#[derive(Clone, Copy)]
pub struct Task {
    pub(crate) params: [Param; 4],
    ghost four: { length params ≡ 4 },
    ghost some: { 0 < count params },
    ghost limit: { count params ≤ most_words },
    ghost bytes: { Bytes params },
}

impl Task {
    // How many value words the task has: at most 65,536, so that `as` keeps the number.
    pub(crate) fn word_count(&self) -> u32
        ensures { result ≡ length (words self.now.params) }
    {
        product(&self.params) as u32
    }

    // The word at a place.
    #[inline(always)]
    pub(crate) fn word_at(&self, place: u32) -> Option<Word>
        ensures { result ≡ slice_get (words self.now.params) place }
    {
        let mut values = [0; 4];
        let mut rest = place;
        for (i, p) in self.params.iter().enumerate().rev() {
            let (more, turn) = split(rest, p.size());
            values[i] = p.value_at(turn);
            rest = more;
        }
        if rest == 0 {
            Some(word_of(values))
        } else {
            None
        }
    }

    // The place of a word.
    #[inline(always)]
    pub(crate) fn place_of(&self, word: Word) -> Option<u32>
        ensures value { result ≡ place_in (words self.now.params) word }
        ensures within { IfSome result (λ i. i < length (words self.now.params)) }
    {
        let values = values_of(word);
        let mut place = 0;
        for (p, v) in self.params.iter().zip(&values) {
            place = place * p.size() + p.turn_of(*v)?;
        }
        Some(place)
    }

    // The word one place after a word.
    pub(crate) fn next(&self, word: Word) -> Option<Word>
        ensures { result ≡ after (words self.now.params) word }
    {
        let place = self.place_of(word)?;
        self.word_at(place + 1)
    }
}
