// The bundle file of objects: their table and data, as the two nodes of a bundle.
ghost use Rattle.std.specs.Prelude.{◌≡◌, ◌<◌, ◌^◌, length, map, IfOk};
ghost use Rattle.addr_base.specs.Ids.{Are16Bytes};
ghost use Rattle.hex.specs.Hex.{IsBytes};
ghost use Rattle.addr_unityfs.specs.Format.{NoZero};
ghost use Rattle.addr_unityfs.specs.Sizes.{file_size};
ghost use Rattle.addr_unityfs.specs.Written as files;
ghost use Rattle.addr_cab.specs.Objects.{HoldsCab, cab_nodes};
ghost use Rattle.addr_cab.specs.Outside.{outside_of};
ghost use Rattle.addr_cab.specs.Sizes.{size_of, node_sizes};
ghost use Rattle.addr_cab.specs.Written.{CanWrite, cab_table, cab_data, refs_of};

use crate::object::ObjectOut;
use crate::writer::write_cab;
use addr_base::{Digest, Items, NoMemory, Text};
use addr_unityfs::{NodeOut, write_bundle};
use std::alloc::Global;

/// The flags of the node of a table. That of the data has none.
const TABLE_FLAGS: u32 = 4;

fn two_nodes(
    alloc: Global,
    name: Digest,
    table: Vec<u8>,
    content: Vec<u8>,
) -> Result<Vec<NodeOut>, NoMemory>
    ensures { IfOk result (λ nodes. nodes.items ≡ cab_nodes name table.items content.items) }
{
    let table_path = format!(in alloc; "CAB-{name}")?;
    let data_path = format!(in alloc; "CAB-{name}.resS")?;
    let mut nodes = Vec::new(alloc);
    nodes.push(NodeOut {
        path: Text::from_string(table_path),
        flags: TABLE_FLAGS,
        bytes: Items::from_vec(table),
    })?;
    nodes.push(NodeOut {
        path: Text::from_string(data_path),
        flags: 0,
        bytes: Items::from_vec(content),
    })?;
    Ok(nodes)
}

/// What the types say of a name's bytes. Nothing runs.
fn name_fits(name: &Digest)
    ensures { Are16Bytes name.now.0 }
{
    sixteen_fit(&name.0)
}

fn sixteen_fit(bytes: &[u8; 16])
    ensures { Are16Bytes bytes.now }
{
    bytes_fit(bytes);
}

fn bytes_fit(bytes: &[u8])
    ensures { IsBytes bytes.now }
{
    let _len = bytes.len();
}

/// The bundle file of objects under a bundle's internal name. The table and the data are kept until they are copied.
pub fn write_cab_file(
    alloc: Global,
    player: &str,
    name: Digest,
    objects: &[ObjectOut],
) -> Result<Vec<u8>, NoMemory>
    requires objects { CanWrite objects.now }
    requires player { NoZero player.now }
    requires small { file_size (length player.now)
        (node_sizes (length (outside_of (refs_of objects.now))) (map size_of objects.now)) < 2 ^ 31 }
    ensures exact { IfOk result (λ file. file.items
        ≡ files.written player.now (cab_nodes name (cab_table objects.now) (cab_data objects.now))) }
    // The file holds these objects under this name, and `table_laws` says that it holds no others.
    ensures holds { IfOk result (λ file. HoldsCab file.items name objects.now) }
{
    name_fits(&name);
    let (table, content) = write_cab(alloc, objects)?;
    let nodes = two_nodes(alloc, name, table, content)?;
    write_bundle(alloc, player, &nodes)
}
