// The first of some things with each text, found by an ordered map whose keys are the texts as they stand.
ghost use Rattle.std.specs.Prelude.{◌≡◌, List, ℕ, map, IfOk};
ghost use Rattle.addr_moves.specs.Firsts.{AreFirsts, number_under};

use addr_base::{Guid, NoMemory, Text};
use addr_locate::{AssetRow, BundleRow};
use addr_project::{Asset, Group};
use std::alloc::Global;
use std::collections::BTreeMap;

/// What is told apart by a text.
pub(crate) trait Keyed {
    ghost key_of: { Self → List ℕ };

    fn key(&self) -> &[u8]
        ensures { result.now ≡ key_of self.now };
}

impl Keyed for Text {
    ghost key_of = { λ text. text };

    fn key(&self) -> &[u8] {
        self.as_bytes()
    }
}

impl Keyed for Group {
    ghost key_of = { λ g. g.name };

    fn key(&self) -> &[u8] {
        self.name.as_bytes()
    }
}

impl Keyed for Guid {
    ghost key_of = { λ guid. guid.0 };

    fn key(&self) -> &[u8] {
        &self.0
    }
}

impl Keyed for Asset {
    ghost key_of = { λ asset. asset.guid.0 };

    fn key(&self) -> &[u8] {
        &self.guid.0
    }
}

impl Keyed for BundleRow {
    ghost key_of = { λ row. row.name };

    fn key(&self) -> &[u8] {
        self.name.as_bytes()
    }
}

impl Keyed for AssetRow {
    ghost key_of = { λ row. row.id };

    fn key(&self) -> &[u8] {
        self.id.as_bytes()
    }
}

/// The number of the first thing with each text. A look-up for each of them, and memory for a number and a reference. More things
/// than 32 bits can number are want of memory, too.
pub(crate) fn firsts_of<'a, T: Keyed>(
    alloc: Global,
    things: &'a [T],
) -> Result<BTreeMap<&'a [u8], u32>, NoMemory>
    ensures { IfOk result (λ firsts. AreFirsts (map T.key_of things.now) (number_under firsts)) }
{
    if things.len() > u32::MAX as usize {
        return Err(NoMemory);
    }
    let mut firsts = BTreeMap::new(alloc);
    for (n, thing) in things.iter().enumerate() {
        let key = thing.key();
        if !firsts.contains_key(key) {
            firsts.insert(key, n as u32)?;
        }
    }
    Ok(firsts)
}

/// The number under a text.
pub(crate) fn number_under(numbers: &BTreeMap<&[u8], u32>, text: &[u8]) -> Option<u32>
    ensures { result ≡ number_under numbers.now text.now }
{
    numbers.get(text).copied()
}
