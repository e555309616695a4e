// The image that `done` of a script hands in. It stands for any bundle: each GUID has an object that holds the GUID's own
// bytes, and no references.
use addr_base::{Digest, Found, Guid, Image, digest};

/// The image of a simulated bundle.
#[derive(Clone, Copy, Drop)]
pub struct SimImage;

impl Image for SimImage {
    ghost use Rattle.std.specs.Prelude.{Some, []};
    ghost use Rattle.addr_base.specs.Ids.{digest_of};

    ghost named = { λ _. record { 0 = digest_of [] } };

    ghost object_of = { λ _ guid. Some (record { bytes = guid; refs = [] }) };

    ghost fits = { λ _ size digest. Unit {0} };

    fn name(&self) -> Digest {
        digest(&[])
    }

    fn object<'a>(&'a self, guid: &'a Guid) -> Option<Found<'a>> {
        Some(Found {
            bytes: &guid.0,
            refs: &[],
        })
    }
}
