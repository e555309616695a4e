// Bundle rows with their ids evaluated. New rows are made beside the old ones, so that where memory is refused none is changed.
ghost use Rattle.std.specs.Prelude.{◌≡◌, IfOk, map};
ghost use Rattle.addr_locate.specs.Evaluated.{evaluated_bundle};

use crate::rows::BundleRow;
use addr_base::{Items, NoMemory, Text, Var, braces};
use std::alloc::Global;

pub(crate) fn evaluated_bundles(
    alloc: Global,
    bundles: &[BundleRow],
    vars: &[Var],
) -> Result<Items<BundleRow>, NoMemory>
    ensures { IfOk result (λ made. made ≡ map (evaluated_bundle vars.now) bundles.now) }
{
    let mut made = Items::new(alloc);
    for bundle in bundles {
        made.push(evaluated_bundle(alloc, bundle, vars)?)?;
    }
    Ok(made)
}

fn evaluated_bundle(alloc: Global, bundle: &BundleRow, vars: &[Var]) -> Result<BundleRow, NoMemory>
    ensures { IfOk result (λ made. made ≡ evaluated_bundle vars.now bundle.now) }
{
    Ok(BundleRow {
        key: Text::copy_of(alloc, bundle.key.as_str())?,
        size: bundle.size,
        digest: bundle.digest,
        name: Text::copy_of(alloc, bundle.name.as_str())?,
        id: braces(alloc, bundle.id.as_str(), vars)?,
    })
}
