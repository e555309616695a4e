// GUIDs and digests as text: 32 lower-case hex digits, written and read. A text is read loosely, written again and
// compared, so that upper-case digits are refused like any other text.
ghost use Rattle.std.specs.Prelude.{◌≡◌, ℕ, List};
ghost use Rattle.std.specs.Option.{option_map};
ghost use Rattle.std.specs.Str.{IsAscii};
ghost use Rattle.addr_base.specs.Ids.{Are16Bytes, ReadsHex, hex_of};

use crate::byte_strings::is_same;
use crate::ids::{Digest, Guid};
use hex::FromHex;
use std::fmt;

/// The 16 bytes that 32 lower-case hex digits spell. It takes bytes, which need not be UTF-8.
pub fn parse_hex(text: &[u8]) -> Option<[u8; 16]>
    ensures reads { ReadsHex text.now result }
    ensures again { (bytes : List ℕ) → Are16Bytes bytes → text.now ≡ hex_of bytes → result ≡ Some bytes }
{
    match <[u8; 16]>::from_hex(text) {
        Ok(bytes) if is_same(text, &hex_digits(bytes)) => Some(bytes),
        _ => None,
    }
}

impl Guid {
    /// The GUID that 32 lower-case hex digits spell.
    pub fn parse(text: &str) -> Option<Guid>
        ensures reads { ReadsHex text.now (option_map (λ guid. guid.0) result) }
        ensures again { (bytes : List ℕ) → Are16Bytes bytes → text.now ≡ hex_of bytes
            → result ≡ Some (record { 0 = bytes }) }
    {
        match parse_hex(text.as_bytes()) {
            Some(bytes) => Some(Guid(bytes)),
            None => None,
        }
    }
}

impl Digest {
    /// The digest that 32 lower-case hex digits spell.
    pub fn parse(text: &str) -> Option<Digest>
        ensures reads { ReadsHex text.now (option_map (λ digest. digest.0) result) }
        ensures again { (bytes : List ℕ) → Are16Bytes bytes → text.now ≡ hex_of bytes
            → result ≡ Some (record { 0 = bytes }) }
    {
        match parse_hex(text.as_bytes()) {
            Some(bytes) => Some(Digest(bytes)),
            None => None,
        }
    }
}

impl fmt::Display for Guid {
    ghost use Rattle.std.specs.Prelude.{Some};
    ghost use Rattle.addr_base.specs.Ids.{hex_of};

    ghost output = { λ guid. Some (hex_of guid.0) };

    fn fmt<W: fmt::Write>(&self, f: &mut fmt::Formatter<W>) -> fmt::Result {
        let digits = hex_digits(self.0);
        f.write_str(as_text(&digits))
    }
}

impl fmt::Display for Digest {
    ghost use Rattle.std.specs.Prelude.{Some};
    ghost use Rattle.addr_base.specs.Ids.{hex_of};

    ghost output = { λ digest. Some (hex_of digest.0) };

    fn fmt<W: fmt::Write>(&self, f: &mut fmt::Formatter<W>) -> fmt::Result {
        let digits = hex_digits(self.0);
        f.write_str(as_text(&digits))
    }
}

fn hex_digits(bytes: [u8; 16]) -> [u8; 32]
    ensures value { result ≡ hex_of bytes }
    ensures ascii { IsAscii result }
{
    let mut digits = [0u8; 32];
    match hex::encode_to_slice(bytes, &mut digits) {
        Ok(()) => digits,
        Err(_) => unreachable!(),
    }
}

fn as_text(ascii: &[u8]) -> &str
    requires { IsAscii ascii.now }
    ensures { result.now ≡ ascii.now }
{
    match std::str::from_utf8(ascii) {
        Ok(text) => text,
        Err(_) => unreachable!(),
    }
}
