// A catalogue's rows in memory: keys and types are found by their texts, and the rows of a key without a walk over all rows.
ghost use Rattle.std.specs.Prelude.{◌≡◌, ◌<◌, ◌^◌, length, nat_lt, slice_get, IsTrue, IfOk, OnErr, OnOk, is_some};
ghost use Rattle.std.specs.List.{list_all, list_any};
ghost use Rattle.std.specs.Option.{option_copied};
ghost use Rattle.addr_locate.specs.Evaluated.{evaluated};
ghost use Rattle.addr_locate.specs.Merge.{is_match, merged, deps_of};
ghost use Rattle.addr_locate.specs.Rows.{AreRows, has_sound_deps, are_bundles, no_repeats, key_of, kind_of, has_key_text, has_kind_text};

use crate::evaluation::evaluated_bundles;
use crate::merging::{distinct_deps, has_match, merge_rows};
use crate::names::Names;
use crate::rows::{AssetRow, BundleRow, Kind, Merge};
use crate::texts::text_at;
use addr_base::{BundleNo, Items, KeyNo, NoMemory, RowNo, Text, TypeNo, Var};
use std::alloc::Global;
use std::marker::Model;

/// The rows of a catalogue. Keys and types are numbered by first occurrence over the asset rows.
#[derive(Debug, Drop)]
pub struct Locator {
    pub(crate) bundles: Items<BundleRow>,
    pub(crate) assets: Items<AssetRow>,
    pub(crate) keys: Names,
    pub(crate) kinds: Names,
    /// The rows of each key, in the order of the catalogue.
    pub(crate) postings: Vec<Items<RowNo>>,
}

impl Model for Locator {
    ghost use Rattle.addr_locate.specs.Rows.{Rows};
    ghost use Rattle.addr_locate.specs.Postings.{IsLocator};

    ghost Value = { Rows };

    ghost view = { λ l. record { bundles = l.bundles; assets = l.assets; keys = l.keys; kinds = l.kinds } };

    ghost invariant = { λ l. IsLocator (record { bundles = l.bundles; assets = l.assets; keys = l.keys; kinds = l.kinds }) l.postings.items };
}

impl Locator {
    /// What every locator keeps. This is a law about its rows, and does nothing when it runs.
    pub fn are_rows(&self)
        ensures { AreRows self.now }
    {
        let _ = &self.bundles;
    }

    /// The bundle rows, in the order of the catalogue.
    pub fn bundles(&self) -> &[BundleRow]
        ensures rows { result.now ≡ self.now.bundles }
        ensures few { length self.now.bundles < 2 ^ 32 }
    {
        self.bundles.as_slice()
    }

    /// The asset rows, in the order of the catalogue.
    pub fn assets(&self) -> &[AssetRow]
        ensures rows { result.now ≡ self.now.assets }
        ensures few { length self.now.assets < 2 ^ 32 }
        ensures deps { IsTrue (list_all (λ a. has_sound_deps (length self.now.bundles) a.deps) self.now.assets) }
    {
        self.assets.as_slice()
    }

    /// The texts of the keys, in the order of their numbers.
    pub fn keys(&self) -> &[Text]
        ensures { result.now ≡ self.now.keys }
    {
        self.keys.texts()
    }

    /// The texts of the types, in the order of their numbers.
    pub fn kinds(&self) -> &[Text]
        ensures { result.now ≡ self.now.kinds }
    {
        self.kinds.texts()
    }

    /// The number of the key with that text, by a hash: it takes no walk over the keys.
    pub fn key_no(&self, text: &str) -> Option<KeyNo>
        ensures place { result ≡ key_of self.now text.now }
        ensures known { is_some result ≡ list_any (has_key_text self.now text.now) self.now.assets }
    {
        match self.keys.place(text) {
            None => None,
            Some(place) => Some(KeyNo(place)),
        }
    }

    /// The number of the type with that text, by a hash: it takes no walk over the types.
    pub fn type_no(&self, text: &str) -> Option<TypeNo>
        ensures place { result ≡ kind_of self.now text.now }
        ensures known { is_some result ≡ list_any (has_kind_text self.now text.now) self.now.assets }
    {
        match self.kinds.place(text) {
            None => None,
            Some(place) => Some(TypeNo(place)),
        }
    }

    pub fn key_text(&self, key: KeyNo) -> Option<&str>
        ensures { option_copied result ≡ slice_get self.now.keys key.0 }
    {
        text_at(self.keys.texts(), key.0)
    }

    pub fn type_text(&self, kind: TypeNo) -> Option<&str>
        ensures { option_copied result ≡ slice_get self.now.kinds kind.0 }
    {
        text_at(self.kinds.texts(), kind.0)
    }

    /// The asset rows that the keys lead to, in the order of the catalogue. A key that isn't in the catalogue is `None`.
    pub fn locate(
        &self,
        alloc: Global,
        keys: &[Option<KeyNo>],
        mode: Merge,
        kind: Kind,
    ) -> Result<Items<RowNo>, NoMemory>
        ensures rows { IfOk result (λ found. found ≡ merged self.now.assets keys.now mode kind) }
        ensures within { IfOk result (λ found. IsTrue (list_all (λ r. nat_lt r.0 (length self.now.assets)) found)) }
    {
        merge_rows(
            alloc,
            self.assets.as_slice(),
            self.postings.as_slice(),
            keys,
            mode,
            kind,
        )
    }

    /// Whether some asset row of the kind has the key: a walk over the key's own rows. No row has a key that is `None`.
    pub fn has_row(&self, key: Option<KeyNo>, kind: Kind) -> bool
        ensures { result ≡ list_any (is_match kind key) self.now.assets }
    {
        has_match(self.assets.as_slice(), self.postings.as_slice(), kind, key)
    }

    /// The distinct bundles that the rows need, in order of first occurrence. A number that is no row's has none.
    pub fn deps(&self, alloc: Global, rows: &[RowNo]) -> Result<Items<BundleNo>, NoMemory>
        ensures bundles { IfOk result (λ found. found ≡ deps_of self.now.assets rows.now) }
        ensures within { IfOk result (λ found. IsTrue (are_bundles (length self.now.bundles) found)) }
        ensures once { IfOk result (λ found. IsTrue (no_repeats found)) }
    {
        distinct_deps(alloc, self.assets.as_slice(), rows)
    }

    /// Puts the values of the variables into the ids of the bundles. Takes memory for as many bundle rows as there are, and
    /// lets go of the old ones.
    pub fn evaluate(&mut self, alloc: Global, vars: &[Var]) -> Result<(), NoMemory>
        ensures ok { OnOk result (self.new ≡ evaluated vars.now self.old) }
        ensures err { OnErr result (self.new ≡ self.old) }
    {
        self.bundles = evaluated_bundles(alloc, self.bundles.as_slice(), vars)?;
        Ok(())
    }
}
