// What rows do.
ghost use Rattle.std.specs.Prelude.{◌≡◌, ◌+◌, ◌<◌, ◌≤◌, min, length, take, drop, ◌++◌, ◌∷◌, [], replicate};
ghost use Rattle.plans.specs.Row.{items};

use crate::room::Row;

// There is no room for the element.
#[derive(Clone, Copy)]
pub struct Full;

impl<T: Copy, const N: usize> Row<T, N> {
    // A row without elements, in room that is filled with `blank`.
    pub fn new(blank: T) -> Self
        ensures items { items result ≡ [] }
        ensures room { result.room ≡ replicate N blank }
    {
        Row {
            room: [blank; N],
            len: 0,
        }
    }

    // The first `len` elements of the room, or all where it has fewer.
    pub fn first(room: [T; N], len: usize) -> Self
        ensures items { items result ≡ take len room }
        ensures room { result.room ≡ room }
    {
        Row {
            room,
            len: len.min(N),
        }
    }

    // The elements, in the order in which they were pushed.
    pub fn items(&self) -> &[T]
        ensures { result.now ≡ items self.now }
    {
        &self.room[..self.len]
    }

    // One element more; where there is no room, no change.
    pub fn push(&mut self, x: T) -> Result<(), Full>
        ensures full { N ≤ length (items self.old) → (result ≡ Err (record {})) × (self.new ≡ self.old) }
        ensures pushed { length (items self.old) < N → (result ≡ Ok tt) × (items self.new ≡ items self.old ++ x ∷ []) }
        ensures behind { drop (length (items self.new)) self.new.room ≡ drop (length (items self.new)) self.old.room }
    {
        let at = self.len;
        if at >= N {
            return Err(Full);
        }
        self.room[at] = x;
        self.len = at + 1;
        Ok(())
    }
}
