// One search for a repeat.
ghost use Rattle.std.specs.Prelude.{◌≡◌, Bool, Decides};
ghost use Rattle.plans.specs.Repeat.{Repeat};

// The first place whose element equals an earlier one.
pub(crate) fn repeat<T: PartialEq>(items: &[T]) -> Option<usize>
    ensures { ((a b : T) (t : Bool) → (t ≡ T.PartialEq.eq a b) → Decides t (a ≡ b)) → Repeat (λ a b. a ≡ b) items.now result }
{
    for (j, item) in items.iter().enumerate() {
        if items[..j].contains(item) {
            return Some(j);
        }
    }
    None
}
