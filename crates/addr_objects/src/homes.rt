// Where references lead: to the object's own bundle, or to the first bundle that is needed and has the name that they give. An
// ordered map finds names, so that no list of bundles is walked for a reference.
ghost use Rattle.std.specs.Prelude.{◌≡◌, ◌++◌, ◌∷◌, [], ℕ, List, MatchOption, IfOk, OnOk};
ghost use Rattle.addr_base.specs.declared.ids.BundleNo.{BundleNo};
ghost use Rattle.addr_base.specs.declared.ids.Digest.{Digest};
ghost use Rattle.addr_history.specs.Unfolding.{IsNamed, LeadsTo};
ghost use Rattle.std.specs.BTreeMap.{get};
ghost use Rattle.addr_objects.specs.within.Homes.{AreHomes, digest_cmp};

use addr_base::{BundleNo, Digest, Home, NoMemory};
use addr_locate::BundleRow;
use std::alloc::Global;
use std::collections::BTreeMap;
use std::marker::Model;

/// Where references lead among the bundles that an operation needs.
#[derive(Drop)]
pub struct Homes<'a> {
    bundles: &'a [BundleRow],
    needs: &'a [BundleNo],
    by_name: BTreeMap<Digest, BundleNo>,
}

impl<'a> Model for Homes<'a> {
    ghost use Rattle.addr_objects.specs.within.Homes.{AreHomes, NeededBundles};

    ghost Value = { NeededBundles };

    ghost view = { λ h. record { bundles = h.bundles.now; needs = h.needs.now } };

    ghost invariant = { λ h. AreHomes h.bundles.now h.needs.now h.by_name };
}

impl<'a> Homes<'a> {
    /// Takes memory for each needed bundle.
    pub fn of(
        alloc: Global,
        bundles: &'a [BundleRow],
        needs: &'a [BundleNo],
    ) -> Result<Homes<'a>, NoMemory>
        ensures { IfOk result (λ homes. homes ≡ record { bundles = bundles.now; needs = needs.now }) }
    {
        let mut by_name = BTreeMap::new(alloc);
        for b in needs {
            add_name(&mut by_name, bundles, *b)?;
        }
        Ok(Homes {
            bundles,
            needs,
            by_name,
        })
    }

    /// The bundle to which a home leads from a bundle, by their numbers. A look-up.
    pub fn leads_to(&self, from: u32, home: Home) -> Option<u32>
        ensures { MatchOption result
            ((c : ℕ) → LeadsTo self.now.bundles self.now.needs from home c → ⊥)
            (λ c. LeadsTo self.now.bundles self.now.needs from home c) }
    {
        match home {
            Home::Own => Some(from),
            Home::Other(name) => match under(&self.by_name, &name) {
                Some(b) => Some(b.0),
                None => None,
            },
        }
    }
}

fn under(by_name: &BTreeMap<Digest, BundleNo>, name: &Digest) -> Option<BundleNo>
    ensures { result ≡ get digest_cmp by_name.now name.now }
{
    by_name.get(name).copied()
}

/// Puts a bundle under its name, where no earlier one has it.
fn add_name(
    by_name: &mut BTreeMap<Digest, BundleNo>,
    bundles: &[BundleRow],
    b: BundleNo,
) -> Result<(), NoMemory>
    ensures { OnOk result ((needs : List BundleNo) → AreHomes bundles.now needs by_name.old
        → AreHomes bundles.now (needs ++ b ∷ []) by_name.new) }
{
    match name_of(bundles, b) {
        None => Ok(()),
        Some(name) => {
            if by_name.get(&name).is_some() {
                return Ok(());
            }
            by_name.insert(name, b)?;
            Ok(())
        }
    }
}

/// The digest that a bundle's name spells.
fn name_of(bundles: &[BundleRow], b: BundleNo) -> Option<Digest>
    ensures { MatchOption result ((name : Digest) → IsNamed bundles.now name b → ⊥)
        (λ name. IsNamed bundles.now name b) }
{
    match bundles.get(b.0 as usize) {
        Some(row) => Digest::parse(row.name.as_str()),
        None => None,
    }
}
