// What lists in lent memory do.
ghost use Rattle.std.specs.Prelude.{◌≡◌, ◌+◌, ◌<◌, ◌≤◌, length, take, slice_set};
ghost use Rattle.std.proofs.Math.Seq.{paste};
ghost use Rattle.runs.specs.Lent.{items, Holds};

use crate::lent::List;
use plans::Full;

impl<'a, T: Copy> List<'a, T> {
    // An empty list over `room`, which stays as it is.
    pub fn new(room: &'a mut [T]) -> Self
        ensures empty { result.len ≡ 0 }
        ensures memory { result.room.now ≡ room.old }
        ensures named { result.room.ghost_name ≡ room.entry.ghost_name }
    {
        List { room, len: 0 }
    }

    // How many more elements there is room for.
    pub fn free(&self) -> usize
        ensures { result + self.now.len ≡ length self.now.room.now }
    {
        self.room.len() - self.len
    }

    // The elements, in the order in which they were pushed.
    pub fn items(&self) -> &[T]
        ensures { result.now ≡ items self.now }
    {
        &self.room[0..self.len]
    }

    // One element more; where there is no room, no change.
    pub fn push(&mut self, x: T) -> Result<(), Full>
        ensures full { length self.old.room.now ≤ self.old.len → (result ≡ Err (record {})) × Holds self.new self.old.len self.old.room.now }
        ensures pushed { self.old.len < length self.old.room.now → (result ≡ Ok tt) × Holds self.new (self.old.len + 1) (slice_set self.old.room.now self.old.len x) }
        ensures named { self.new.room.ghost_name ≡ self.old.room.ghost_name }
    {
        let at = self.len;
        if at >= self.room.len() {
            return Err(Full);
        }
        self.room[at] = x;
        self.len = at + 1;
        Ok(())
    }

    // All the elements of `items`; where there is no room for all of them, no change.
    #[inline(always)]
    pub fn append(&mut self, items: &[T]) -> Result<(), Full>
        ensures full { length self.old.room.now < self.old.len + length items.now → (result ≡ Err (record {})) × Holds self.new self.old.len self.old.room.now }
        ensures appended { self.old.len + length items.now ≤ length self.old.room.now → (result ≡ Ok tt) × Holds self.new (self.old.len + length items.now) (paste self.old.room.now self.old.len items.now (length items.now)) }
        ensures named { self.new.room.ghost_name ≡ self.old.room.ghost_name }
    {
        if self.free() < items.len() {
            return Err(Full);
        }
        let end = self.len + items.len();
        self.room[self.len..end].copy_from_slice(items);
        self.len = end;
        Ok(())
    }
}
