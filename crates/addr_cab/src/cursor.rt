// Bytes that are still to be read, with the place in the table where they end. The place where they begin is a
// difference, so that no field carries a place along.
ghost use Rattle.std.specs.Prelude.{◌<◌, ◌≤◌, ◌^◌, length};

#[derive(Clone, Copy)]
pub struct Cursor<'a> {
    pub end: u64,
    pub rest: &'a [u8],
    ghost placed: { (end < 2 ^ 63) × (length rest.now ≤ end) },
}
