// The digits of 16 bytes.
ghost use Rattle.std.specs.Prelude.{◌≡◌};
ghost use Rattle.addr_base.specs.Ids.{hex_of};

/// The 32 hex digits of a GUID or a digest.
pub(crate) fn digits_of(bytes: [u8; 16]) -> [u8; 32]
    ensures { result ≡ hex_of bytes }
{
    let mut digits = [0u8; 32];
    match hex::encode_to_slice(bytes, &mut digits) {
        Ok(()) => digits,
        Err(_) => unreachable!(),
    }
}
