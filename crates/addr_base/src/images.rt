// What a bundle's image in memory gives: its internal name, and the objects in it by GUID.
ghost use Rattle.std.specs.Prelude.{◌≡◌, List, ℕ, Option, Some, None, MatchOption};
ghost use Rattle.addr_base.specs.declared.ids.Digest.{Digest};
ghost use Rattle.addr_base.specs.Images.{Object};

use crate::ids::{Digest, Guid};

/// Where a reference of an object leads.
#[derive(Clone, Copy, PartialEq, Eq)]
pub enum Home {
    /// To the object's own bundle.
    Own,
    /// To the bundle with that internal name.
    Other(Digest),
}

/// A reference of an object to another one.
#[derive(Clone, Copy, PartialEq, Eq)]
pub struct RefTo {
    pub guid: Guid,
    pub home: Home,
}

/// An object as its bundle's image lends it.
#[derive(Drop)]
pub struct Found<'a> {
    pub bytes: &'a [u8],
    pub refs: &'a [RefTo],
}

/// A bundle in memory.
pub trait Image {
    /// The bundle's internal name.
    ghost named: { Self → Digest };

    /// The object with a GUID, if the bundle has it.
    ghost object_of: { Self → List ℕ → Option Object };

    /// Whether the file behind the image has a size in bytes and a digest.
    ghost fits: { Self → ℕ → Digest → Type 0 };

    fn name(&self) -> Digest
        ensures { result ≡ named self.now };

    /// The object with that GUID. What is lent may borrow from the image or from the GUID that was asked for.
    fn object<'a>(&'a self, guid: &'a Guid) -> Option<Found<'a>>
        ensures { MatchOption result (object_of self.now guid.now.0 ≡ None)
            (λ f. object_of self.now guid.now.0 ≡ Some (record { bytes = f.bytes.now; refs = f.refs.now })) };
}
