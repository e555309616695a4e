// What an entry is, by the id of its provider. Both ids are compared whole: another provider's entry has rules of its own.
ghost use Rattle.std.specs.Prelude.{◌≡◌};
ghost use Rattle.addr_catalog.specs.Entries.{role_of};

/// The id of the provider of bundles.
pub const BUNDLE_PROVIDER: &str =
    "UnityEngine.ResourceManagement.ResourceProviders.AssetBundleProvider";

/// The id of the provider of the assets in bundles.
pub const ASSET_PROVIDER: &str =
    "UnityEngine.ResourceManagement.ResourceProviders.BundledAssetProvider";

#[derive(Clone, Copy, Debug, PartialEq, Eq)]
pub enum Role {
    Bundle,
    Asset,
}

/// What an entry with the provider is.
#[tactic(auto, unfolding(crate::specs::Entries::role_of))]
pub fn role_of(provider: &str) -> Option<Role>
    ensures { result ≡ role_of provider.now }
{
    if provider == BUNDLE_PROVIDER {
        Some(Role::Bundle)
    } else if provider == ASSET_PROVIDER {
        Some(Role::Asset)
    } else {
        None
    }
}
