// The value of bytes in JSON.
ghost use Rattle.std.specs.Prelude.{◌≡◌, IfOk};
ghost use Rattle.std.specs.Option.{option_map};
ghost use Rattle.serde_json.specs.View.{view};
ghost use Rattle.addr_json.specs.Members.{tree_of};

use addr_base::NoMemory;
use serde_json::Value;
use std::alloc::Global;

/// The value, or None where the bytes are no JSON in UTF-8 (RFC 8259).
#[tactic(auto, using(crate::proofs::TreeLemmas::tree_good, crate::proofs::TreeLemmas::tree_bad))]
pub fn read_tree(alloc: Global, bytes: &[u8]) -> Result<Option<Value>, NoMemory>
    ensures { IfOk result (λ tree. option_map view tree ≡ tree_of bytes.now) }
{
    match Value::from_slice(alloc, bytes) {
        Ok(tree) => Ok(Some(tree)),
        Err(error) => {
            if error.is_memory() {
                Err(NoMemory)
            } else {
                Ok(None)
            }
        }
    }
}
