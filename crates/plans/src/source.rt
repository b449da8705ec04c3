// A plan, told through questions.
ghost use Rattle.std.specs.Prelude.{◌≡◌};
ghost use Rattle.plans.specs.Plan.{Plan, Keeps, task_count, word_count, word_at, place_of, next_word, link_count, link_ends, target};

use crate::ends::Ends;
use crate::word::Word;

// A question changes nothing. What is unknown is answered with nothing.
pub trait Source {
    // the plan that the source means
    ghost plan: { Self → Plan };

    // it keeps the rules of plans: above the questions, so that a caller of a `dyn Source` knows it too
    ghost keeps: { (x : Self) → Keeps (plan x) };

    fn task_count(&self) -> usize
        ensures { result ≡ task_count (plan self.now) };

    // How many words a task has.
    fn word_count(&self, task: usize) -> Option<u32>
        ensures { result ≡ word_count (plan self.now) task };

    // The word at a place.
    fn word_at(&self, task: usize, place: u32) -> Option<Word>
        ensures { result ≡ word_at (plan self.now) task place };

    // The place of a word.
    fn place_of(&self, task: usize, word: Word) -> Option<u32>
        ensures { result ≡ place_of (plan self.now) task word };

    // The word one place after a word.
    fn next_word(&self, task: usize, word: Word) -> Option<Word>
        ensures { result ≡ next_word (plan self.now) task word };

    fn link_count(&self) -> usize
        ensures { result ≡ link_count (plan self.now) };

    fn ends(&self, link: usize) -> Option<Ends>
        ensures { result ≡ link_ends (plan self.now) link };

    // What a link gives at a word of the task that it goes from.
    fn target(&self, link: usize, word: Word) -> Option<Word>
        ensures { result ≡ target (plan self.now) link word };
}
