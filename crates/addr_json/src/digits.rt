// Texts of 32 lower-case hex digits: digests and GUIDs.
ghost use Rattle.std.specs.Prelude.{◌≡◌};
ghost use Rattle.serde_json.specs.View.{view};
ghost use Rattle.addr_json.specs.Members.{bytes_from, bytes_in, digest_in, guid_in};

use addr_base::{Digest, Guid, parse_hex};
use serde_json::Value;

/// The 16 bytes of a text. Upper-case digits are none.
fn sixteen_bytes(text: &str) -> Option<[u8; 16]>
    ensures { result ≡ bytes_from text.now }
{
    parse_hex(text.as_bytes())
}

fn as_sixteen(value: &Value) -> Option<[u8; 16]>
    ensures { result ≡ bytes_in (view value.now) }
{
    match value.as_str() {
        Some(text) => sixteen_bytes(text),
        None => None,
    }
}

pub fn as_digest(value: &Value) -> Option<Digest>
    ensures { result ≡ digest_in (view value.now) }
{
    match as_sixteen(value) {
        Some(bytes) => Some(Digest(bytes)),
        None => None,
    }
}

pub fn as_guid(value: &Value) -> Option<Guid>
    ensures { result ≡ guid_in (view value.now) }
{
    match as_sixteen(value) {
        Some(bytes) => Some(Guid(bytes)),
        None => None,
    }
}
