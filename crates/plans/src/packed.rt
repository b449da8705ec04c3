// A packed plan.
ghost use Rattle.std.specs.Prelude.{◌≡◌, true, length};
ghost use Rattle.plans.specs.Accepted.{inside_all, good_names};
ghost use Rattle.plans.specs.Plan.{Keeps};
ghost use Rattle.plans.specs.Meaning.{plan_of};
ghost use Rattle.plans.specs.Decoded.{shown};

use crate::record::Record;

// A record that was checked, and its parts.
#[derive(Clone, Copy)]
pub struct Packed<'a> {
    pub(crate) bytes: &'a [u8],
    pub(crate) parts: Record,
    ghost inside: { inside_all (length bytes.now) (shown parts).names ≡ true },
    ghost named: { good_names bytes.now (shown parts).names ≡ true },
    ghost keeps: { ∥ Keeps (plan_of (shown parts)) ∥₁ },
}
