// Whether a key was there before. Two keys are the same exactly where their written forms are, so a set of the written forms
// tells it in logarithmic time: a comparison with each earlier key would be quadratic in a table that somebody else wrote.
ghost use Rattle.std.specs.Prelude.{◌≡◌, ◌++◌, ◌∷◌, [], List, not, IfOk};
ghost use Rattle.std.specs.List.{list_any};
ghost use Rattle.addr_keys.specs.declared.key.Key.{Key};
ghost use Rattle.addr_keys.specs.Format.{IsWritable};
ghost use Rattle.addr_tables.specs.Format.{is_same_key};
ghost use Rattle.addr_tables.specs.Seen.{HasForms};

use addr_base::NoMemory;
use addr_keys::{Key, write_key};
use std::alloc::Global;
use std::collections::BTreeSet;

/// Whether the key wasn't there before. Its form is in the set from then on.
pub fn is_new(alloc: Global, seen: &mut BTreeSet<Vec<u8>>, key: &Key) -> Result<bool, NoMemory>
    requires { IsWritable key.now }
    ensures told { (keys : List Key) → HasForms seen.old keys → IfOk result
        (λ new. new ≡ not (list_any (is_same_key key.now) keys)) }
    ensures more { (keys : List Key) → HasForms seen.old keys → IfOk result
        (λ new. HasForms seen.new (keys ++ key.now ∷ [])) }
{
    let mut form = Vec::new(alloc);
    write_key(key, &mut form)?;
    Ok(seen.insert(form)?)
}
