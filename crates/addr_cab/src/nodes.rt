// The two nodes of a bundle that hold a table and its data, told by their paths.
ghost use Rattle.std.specs.Prelude.{◌≡◌, ◌+◌, ◌≤◌, ◌++◌, length, codes, MatchOption, IsTrue, ◌↔◌};
ghost use Rattle.addr_base.specs.Ids.{Are16Bytes};
ghost use Rattle.addr_base.specs.declared.ids.Digest.{Digest};
ghost use Rattle.addr_unityfs.specs.Format.{node_bytes};
ghost use Rattle.addr_unityfs.specs.declared.bundle.NodePlace.{NodePlace};
ghost use Rattle.addr_cab.specs.Spelling.{table_path, data_path};
ghost use Rattle.addr_cab.specs.Format.{AreNodes};

use addr_base::{Digest, parse_hex};
use addr_fields::{after_word, is_same};
use addr_unityfs::{Bundle, NodePlace};

/// The bytes with which both paths begin.
const PREFIX: &[u8] = b"CAB-";

/// The bytes that the path of the data has more.
const SUFFIX: &[u8] = b".resS";

/// The nodes of a table, and the bundle's internal name.
#[derive(Clone, Copy)]
pub struct Nodes<'a> {
    pub name: Digest,
    pub table: &'a NodePlace,
    pub content: &'a NodePlace,
}

/// The internal name in the path of a table.
fn name_in(path: &[u8]) -> Option<Digest>
    ensures { MatchOption result ((name : Digest) → Are16Bytes name.0 → path.now ≡ table_path name → ⊥)
        (λ name. Are16Bytes name.0 × (path.now ≡ table_path name)) }
{
    let digits = after_word(path, PREFIX)?;
    let bytes = parse_hex(digits)?;
    Some(Digest(bytes))
}

/// Whether a path is another one with the ending of the data.
fn is_data_path(path: &[u8], table: &[u8]) -> bool
    ensures { IsTrue result ↔ (path.now ≡ table.now ++ codes ".resS") }
{
    match after_word(path, table) {
        Some(rest) => is_same(rest, SUFFIX),
        None => false,
    }
}

/// The two nodes, where the bundle has exactly these.
pub fn nodes_of(bundle: &Bundle) -> Option<Nodes<'_>>
    ensures { MatchOption result ((name : Digest) (table content : NodePlace)
        → AreNodes bundle.now name table content → ⊥) (λ n. AreNodes bundle.now n.name n.table.now n.content.now) }
{
    let nodes = bundle.nodes.as_slice();
    if nodes.len() != 2 {
        return None;
    }
    let (table, content) = (&nodes[0], &nodes[1]);
    let name = name_in(table.path.as_bytes())?;
    if !is_data_path(content.path.as_bytes(), table.path.as_bytes()) {
        return None;
    }
    Some(Nodes {
        name,
        table,
        content,
    })
}

/// The bytes of a node of a file that is the bundle.
pub fn bytes_of<'a>(file: &'a [u8], bundle: &Bundle, node: &NodePlace) -> &'a [u8]
    requires { bundle.now.start + node.now.offset + node.now.size ≤ length file.now }
    ensures { result.now ≡ node_bytes file.now bundle.now node.now }
{
    let from = (bundle.start + node.offset) as usize;
    &file[from..][..node.size as usize]
}
