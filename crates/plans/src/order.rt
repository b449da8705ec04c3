// The order of a link's targets.
ghost use Rattle.std.specs.Prelude.{◌≡◌};
ghost use Rattle.std.specs.List.{slice_get};
ghost use Rattle.plans.specs.Lists.{and_then};
ghost use Rattle.plans.specs.Words.{words};
ghost use Rattle.plans.specs.Order.{place_of_target, target_places, follows, rising};

use crate::link::Joined;

// Whether a place may come after another: no target goes back, and none comes after a word without one.
fn follows(least: Option<u32>, place: Option<u32>) -> bool
    ensures { result ≡ follows least place }
{
    match (least, place) {
        (_, None) => true,
        (None, Some(_)) => false,
        (Some(least), Some(place)) => least <= place,
    }
}

impl Joined {
    // The place of the target at a place of the from task.
    fn place_at(&self, place: u32) -> Option<u32>
        ensures { result ≡ and_then (slice_get (words self.now.from.params) place) (place_of_target self.now.from.params self.now.to.params self.now.each) }
    {
        let word = self.from.word_at(place)?;
        let target = self.target_at(word)?;
        self.to.place_of(target)
    }

    // Whether the targets stand on the first words and on none after, and never go back.
    pub(crate) fn in_order(&self) -> bool
        ensures { result ≡ rising 0 (target_places self.now.from.params self.now.to.params self.now.each) }
    {
        let mut least = Some(0);
        // by place: the words of a task are computed, and stored nowhere
        for i in 0..self.from.word_count() {
            // without a target here none may come after it
            let Some(place) = self.place_at(i) else {
                least = None;
                continue;
            };
            if !follows(least, Some(place)) {
                return false;
            }
            least = Some(place);
        }
        true
    }
}
