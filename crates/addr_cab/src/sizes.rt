// The sizes of what will be written, by lengths alone, for objects that could never be held. They saturate: a size past
// u64 is told as its end.
ghost use Rattle.std.specs.Prelude.{◌≡◌, ◌+◌, ◌-◌, ◌*◌, ◌^◌, min, sum_by};
ghost use Rattle.addr_unityfs.specs.Sizes.{file_size};
ghost use Rattle.addr_cab.specs.Sizes.{row_size, rows_size, table_size, content_size, node_sizes};

use crate::object::ObjectSize;
use addr_unityfs::{NodeSize, bundle_size};

/// Bytes of a table beside its outside bundles and objects, of an outside bundle, of an object, and of a reference.
const FRONT: u64 = 12;

const NAME: u64 = 16;

const ROW: u64 = 36;

const REF: u64 = 20;

/// Bytes of the paths of the two nodes: `CAB-` and 32 digits, and the same with `.resS`.
const TABLE_PATH: u64 = 36;

const DATA_PATH: u64 = 41;

/// How many bytes a table and its data have.
#[derive(Clone, Copy)]
pub struct CabSize {
    pub table: u64,
    pub content: u64,
}

fn row_size(object: ObjectSize) -> u64
    ensures { result ≡ min (row_size object) (2 ^ 64 - 1) }
{
    REF.saturating_mul(object.refs).saturating_add(ROW)
}

fn rows_size(objects: &[ObjectSize]) -> u64
    ensures { result ≡ min (rows_size objects.now) (2 ^ 64 - 1) }
{
    let mut size: u64 = 0;
    for object in objects {
        size = size.saturating_add(row_size(*object));
    }
    size
}

fn content_size(objects: &[ObjectSize]) -> u64
    ensures { result ≡ min (content_size objects.now) (2 ^ 64 - 1) }
{
    let mut size: u64 = 0;
    for object in objects {
        size = size.saturating_add(object.bytes);
    }
    size
}

/// The sizes of the table and the data that `write_cab` writes for objects of these lengths, whose references lead to so
/// many bundles outside; the greatest u64 in place of more. `table_laws` ties them to the bytes.
pub fn cab_size(outside: u64, objects: &[ObjectSize]) -> CabSize
    ensures table { result.table ≡ min (table_size outside objects.now) (2 ^ 64 - 1) }
    ensures content { result.content ≡ min (content_size objects.now) (2 ^ 64 - 1) }
{
    CabSize {
        table: NAME
            .saturating_mul(outside)
            .saturating_add(FRONT)
            .saturating_add(rows_size(objects)),
        content: content_size(objects),
    }
}

/// The size of the bundle file of that table and data under a player's version of so many bytes, or the greatest u64.
pub fn cab_file_size(player: u64, outside: u64, objects: &[ObjectSize]) -> u64
    ensures { result ≡ min (file_size player (node_sizes outside objects.now)) (2 ^ 64 - 1) }
{
    let size = cab_size(outside, objects);
    let table = NodeSize {
        path: TABLE_PATH,
        bytes: size.table,
    };
    let content = NodeSize {
        path: DATA_PATH,
        bytes: size.content,
    };
    bundle_size(player, &[table, content])
}
