// The name by which tables and catalogues call a bundle.
ghost use Rattle.std.specs.Prelude.{◌≡◌};
ghost use Rattle.addr_base.specs.Ids.{digest_of};

use addr_base::{Digest, digest};

/// The internal name of a bundle: the digest of its name's bytes.
pub fn internal_name(bundle_name: &str) -> Digest
    ensures { result.0 ≡ digest_of bundle_name.now }
{
    digest(bundle_name.as_bytes())
}
