// A list over memory that its caller lends.
ghost use Rattle.std.specs.Prelude.{◌≤◌, length};

// A list in memory that its caller lends: the first `len` elements of `room`.
#[derive(Drop)]
pub struct List<'a, T> {
    pub(crate) room: &'a mut [T],
    pub(crate) len: usize,
    ghost fits: { len ≤ length room.now },
}
