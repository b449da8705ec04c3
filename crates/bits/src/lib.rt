// Reads fields of bits from bytes, the most significant bit first.
// A bit's number has 128 bits, since eight times a slice's length can pass 64.
#![tactic(auto)]

ghost use Rattle.std.specs.Prelude.{◌≡◌, ◌+◌, ◌*◌, ◌^◌, ◌<◌, ◌≤◌, min, length, is_ok, IfOk, if◌then◌else◌, slice_index};
ghost use Rattle.bits.specs.Bits.{bits, field, spelled};
ghost use Rattle.bits.specs.Fields.{field_at};

// The bytes end within a field, which begins at the bit `at`.
#[derive(Clone, Copy)]
pub struct Fault {
    pub at: u128,
}

// The bit of `bytes` at `i`.
#[tactic(auto, using(crate::proofs::Bits::get_or_bits))]
fn bit_at(bytes: &[u8], i: u128) -> u8
    requires { i < 8 * length bytes.now }
    ensures value { result ≡ slice_index (bits bytes.now) i }
    ensures bound { result < 2 }
{
    (bytes[(i / 8) as usize] >> (7 - i % 8)) % 2
}

// The number that `width` bits spell from the bit `at` on.
// A loop: what a `fold` is given would have to state the bound of the number so far, and its proof is by hand.
#[tactic(auto, using(crate::proofs::Bits::spelled_more, std::proofs::lemmas::Grind::pow_more))]
fn number_at(bytes: &[u8], at: u128, width: u32) -> u32
    requires within { at + width ≤ 8 * length bytes.now }
    requires narrow { width ≤ 32 }
    ensures value { result ≡ spelled (field bytes.now at width) }
    ensures bound { result < 2 ^ width }
{
    let mut value = 0;
    for i in 0..width {
        value = value * 2 + u32::from(bit_at(bytes, at + u128::from(i)));
    }
    value
}

// A place among the bits of some bytes.
#[derive(Drop)]
pub struct Reader<'a> {
    bytes: &'a [u8],
    at: u128,
    ghost within: { at ≤ 8 * length bytes.now },
}

impl<'a> Reader<'a> {
    // A reader at the first bit.
    pub fn new(bytes: &'a [u8]) -> Self
        ensures bytes { result.bytes.now ≡ bytes.now }
        ensures place { result.at ≡ 0 }
    {
        Reader { bytes, at: 0 }
    }

    // The number of the next field's first bit.
    pub fn place(&self) -> u128
        ensures { result ≡ self.now.at }
    {
        self.at
    }

    // The number in the next field, which has `width` bits and never more than 32. A refusal leaves the reader as it was.
    #[tactic(auto, using(crate::proofs::Bits::length_bits, std::proofs::lemmas::Bool::Decides::nat_tests))]
    pub fn read(&mut self, width: u32) -> Result<u32, Fault>
        ensures value { result ≡ field_at self.old.bytes.now self.old.at (min width 32) }
        ensures bound { IfOk result (λ v. v < 2 ^ min width 32) }
        ensures place { self.new.at ≡ (if is_ok result then self.old.at + min width 32 else self.old.at) }
        ensures bytes { self.new.bytes.now ≡ self.old.bytes.now }
    {
        let width = width.min(32);
        let end = self.at + u128::from(width);
        if end > 8 * self.bytes.len() as u128 {
            return Err(Fault { at: self.at });
        }
        let value = number_at(self.bytes, self.at, width);
        self.at = end;
        Ok(value)
    }
}
