// The lines of a text, one after the other. They are cut off the front, so that a hostile text takes no memory.
ghost use Rattle.std.specs.Prelude.{◌≡◌, ◌<◌, ◌≤◌, ◌+◌, ◌∷◌, [], MatchOption, IfSome, length};
ghost use Rattle.addr_fields.specs.Lines.{lines_of};

use crate::fields::cut_at;

/// The first line, without its end, and what stands behind it; None where there is no line left.
pub fn next_line(bytes: &[u8]) -> Option<(&[u8], &[u8])>
    ensures line { MatchOption result (bytes.now ≡ []) (λ cut. lines_of bytes.now ≡ cut.0.now ∷ lines_of cut.1.now) }
    ensures shorter { IfSome result (λ cut. length cut.1.now < length bytes.now) }
    ensures parts { IfSome result (λ cut. length cut.0.now + length cut.1.now ≤ length bytes.now) }
{
    if bytes.is_empty() {
        return None;
    }
    match cut_at(bytes, b'\n') {
        Some((line, rest)) => Some((line, rest)),
        None => Some((bytes, &[])),
    }
}
