// What the fakes give of their bytes at one call: the front of what is left, at most one piece.
ghost use Rattle.std.specs.Prelude.{◌≡◌, ◌<◌, [], length, take, min};

/// Copies the front of the bytes into the front of the slice, as much as the slice and one piece have room for.
pub fn copy_front(bytes: &[u8], into: &mut [u8], piece: usize) -> usize
    requires { 0 < piece }
    ensures count { result ≡ min (min (length bytes.now) (length into.new)) piece }
    ensures same { take result into.new ≡ take result bytes.now }
    ensures none { result ≡ 0 → 0 < length into.new → bytes.now ≡ [] }
{
    let count = bytes.len().min(into.len()).min(piece);
    into[..count].copy_from_slice(&bytes[..count]);
    count
}
