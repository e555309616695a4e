// Values from outside: a worked table and one of two objects, written and read as bundle files, their faults, each cut
// of a table, and hostile counts. Proofs say that each answer is the right one of the definition; these say that the
// definition is, and that calls succeed with ample memory.
ghost use Rattle.std.specs.Prelude.{◌≡◌, ◌+◌, ◌≤◌, ◌<◌, ◌^◌, length, IfOk};

use super::*;
use addr_base::{Digest, Guid, Home, Image, Items, NoMemory, RefTo, Text};
use addr_unityfs::{NodeOut, read_bundle, write_bundle};
use std::alloc::Global;
use std::test::*;

const G1: Guid = Guid([0, 0, 0, 0, 0, 0, 0, 0, 0, 0, 0, 0, 0, 0, 0, 1]);

const G2: Guid = Guid([0, 0, 0, 0, 0, 0, 0, 0, 0, 0, 0, 0, 0, 0, 0, 2]);

/// The internal name of sixteen zero bytes.
const Z: Digest = Digest([0; 16]);

/// One object `G1` with the byte `A`, which refers to itself and to `G2` in the bundle `Z`.
const TABLE: [u8; 104] = *b"ADT1\x01\0\0\0\
\0\0\0\0\0\0\0\0\0\0\0\0\0\0\0\0\
\x01\0\0\0\
\0\0\0\0\0\0\0\0\0\0\0\0\0\0\0\x01\
\0\0\0\0\0\0\0\0\x01\0\0\0\0\0\0\0\x02\0\0\0\
\0\0\0\0\0\0\0\0\0\0\0\0\0\0\0\x01\0\0\0\0\
\0\0\0\0\0\0\0\0\0\0\0\0\0\0\0\x02\x01\0\0\0";

const X: Digest = Digest([1; 16]);

const Y: Digest = Digest([2; 16]);

/// `G1` with the bytes `ab`, which refers to `G2` beside it and to `G2` in the bundle `Y`, and `G2` with the byte `c`,
/// which refers to `G1` in the bundle `X`.
const TWO: [u8; 176] = *b"ADT1\x02\0\0\0\
\x01\x01\x01\x01\x01\x01\x01\x01\x01\x01\x01\x01\x01\x01\x01\x01\
\x02\x02\x02\x02\x02\x02\x02\x02\x02\x02\x02\x02\x02\x02\x02\x02\
\x02\0\0\0\
\0\0\0\0\0\0\0\0\0\0\0\0\0\0\0\x01\
\0\0\0\0\0\0\0\0\x02\0\0\0\0\0\0\0\x02\0\0\0\
\0\0\0\0\0\0\0\0\0\0\0\0\0\0\0\x02\0\0\0\0\
\0\0\0\0\0\0\0\0\0\0\0\0\0\0\0\x02\x02\0\0\0\
\0\0\0\0\0\0\0\0\0\0\0\0\0\0\0\x02\
\x02\0\0\0\0\0\0\0\x01\0\0\0\0\0\0\0\x01\0\0\0\
\0\0\0\0\0\0\0\0\0\0\0\0\0\0\0\x01\x01\0\0\0";

const TABLE_PATH: &str = "CAB-00000000000000000000000000000001";

const DATA_PATH: &str = "CAB-00000000000000000000000000000001.resS";

/// The bundle file of a table and its data.
fn file_of(alloc: Global, table: &[u8], content: &[u8]) -> Result<Vec<u8>, NoMemory>
    requires { length table.now + length content.now < 2 ^ 20 }
{
    let table = NodeOut {
        path: Text::copy_of(alloc, TABLE_PATH)?,
        flags: 4,
        bytes: Items::copy_of(alloc, table)?,
    };
    let content = NodeOut {
        path: Text::copy_of(alloc, DATA_PATH)?,
        flags: 0,
        bytes: Items::copy_of(alloc, content)?,
    };
    write_bundle(alloc, "", &[table, content])
}

fn read(alloc: Global, table: &[u8], content: &[u8]) -> Result<Cab, CabErr>
    requires { length table.now + length content.now < 2 ^ 20 }
{
    let file = file_of(alloc, table, content)?;
    match read_bundle(alloc, &file) {
        Ok(bundle) => read_cab(alloc, file, &bundle),
        Err(_) => Err(CabErr::NoMemory),
    }
}

fn to(guid: Guid, home: Home) -> RefTo
    ensures { result ≡ record { guid = guid; home = home } }
{
    RefTo { guid, home }
}

fn object(alloc: Global, guid: Guid, bytes: &[u8], refs: &[RefTo]) -> Result<ObjectOut, NoMemory>
    ensures { IfOk result (λ o. o ≡ record { guid = guid; bytes = bytes.now; refs = refs.now }) }
{
    Ok(ObjectOut {
        guid,
        bytes: Items::copy_of(alloc, bytes)?,
        refs: Items::copy_of(alloc, refs)?,
    })
}

fn write_one(alloc: Global) -> Result<(Vec<u8>, Vec<u8>), NoMemory> {
    let refs = [to(G1, Home::Own), to(G2, Home::Other(Z))];
    write_cab(alloc, &[object(alloc, G1, b"A", &refs)?])
}

fn write_two(alloc: Global) -> Result<(Vec<u8>, Vec<u8>), NoMemory> {
    let first = [to(G2, Home::Own), to(G2, Home::Other(Y))];
    let second = [to(G1, Home::Other(X))];
    let objects = [
        object(alloc, G1, b"ab", &first)?,
        object(alloc, G2, b"c", &second)?,
    ];
    write_cab(alloc, &objects)
}

fn write_one_file(alloc: Global) -> Result<Vec<u8>, NoMemory> {
    let refs = [to(G1, Home::Own), to(G2, Home::Other(Z))];
    write_cab_file(alloc, "", Z, &[object(alloc, G1, b"A", &refs)?])
}

/// The fault of the first table where some of its bytes are others.
fn changed(alloc: Global, at: usize, bytes: &[u8]) -> Option<CabErr>
    requires { at + length bytes.now ≤ 104 }
{
    let mut table = TABLE;
    table[at..at + bytes.len()].copy_from_slice(bytes);
    read(alloc, &table, b"A").err()
}

/// The fault of the table of two objects where one of its bytes is another.
fn changed_two(alloc: Global, at: usize, byte: u8) -> Option<CabErr>
    requires { at < 176 }
{
    let mut table = TWO;
    table[at] = byte;
    read(alloc, &table, b"abc").err()
}

/// The fault of a bundle that has no nodes.
fn without_nodes(alloc: Global) -> Option<CabErr> {
    let file = write_bundle(alloc, "", &[]).ok()?;
    let bundle = read_bundle(alloc, &file).ok()?;
    read_cab(alloc, file, &bundle).err()
}

#[test]
fn one_object_is_written_and_read(rt: HostRuntime) -> Result<(), Fail> {
    let alloc = rt.alloc();
    let (table, content) = write_one(alloc).ok().ok_or("memory")?;
    assert!(rt; table.as_slice() == TABLE.as_slice() && content.as_slice() == b"A".as_slice());
    let cab = read(alloc, &table, &content).ok().ok_or("a table")?;
    assert!(rt; cab.name() == Digest(G1.0) && cab.count() == 1);
    assert!(rt; cab.guid(0) == Some(G1) && cab.guid(1) == None);
    let found = cab.object(&G1).ok_or("the object")?;
    assert!(rt; found.bytes == b"A".as_slice() && found.refs.len() == 2);
    assert!(rt; found.refs[0].home == Home::Own && found.refs[1].home == Home::Other(Z));
    assert!(rt; cab.object(&G2).is_none());
    Ok(())
}

#[test]
fn a_file_is_written_and_has_the_size_that_lengths_tell(rt: HostRuntime) -> Result<(), Fail> {
    let alloc = rt.alloc();
    let one = ObjectSize { bytes: 1, refs: 2 };
    let size = cab_size(1, &[one]);
    assert!(rt; size.table == 104 && size.content == 1);
    let endless = ObjectSize {
        bytes: u64::MAX,
        refs: u64::MAX,
    };
    let most = cab_size(u64::MAX, &[one, endless]);
    assert!(rt; most.table == u64::MAX && most.content == u64::MAX);
    assert!(rt; cab_file_size(0, 1, &[endless]) == u64::MAX);
    let file = write_one_file(alloc).ok().ok_or("memory")?;
    assert!(rt; cab_file_size(0, 1, &[one]) == file.len() as u64 && file.len() == 306);
    let bundle = read_bundle(alloc, &file).ok().ok_or("a bundle")?;
    let cab = read_cab(alloc, file, &bundle).ok().ok_or("a table")?;
    assert!(rt;
        cab.name() == Z
            && cab
                .object(&G1)
                .is_some_and(|found| found.bytes == b"A".as_slice())
    );
    Ok(())
}

#[test]
fn two_objects_are_written_and_read(rt: HostRuntime) -> Result<(), Fail> {
    let alloc = rt.alloc();
    let (table, content) = write_two(alloc).ok().ok_or("memory")?;
    assert!(rt; table.as_slice() == TWO.as_slice() && content.as_slice() == b"abc".as_slice());
    let cab = read(alloc, &table, &content).ok().ok_or("a table")?;
    assert!(rt; cab.count() == 2 && cab.objects()[0].size == 2 && cab.objects()[1].offset == 2);
    let found = cab.object(&G2).ok_or("the object")?;
    assert!(rt; found.bytes == b"c".as_slice());
    assert!(rt; found.refs.len() == 1 && found.refs[0].home == Home::Other(X));
    Ok(())
}

#[test]
fn faults_are_named(rt: HostRuntime) {
    let alloc = rt.alloc();
    assert!(rt; changed(alloc, 0, b"B") == Some(CabErr::Magic));
    assert!(rt; changed_two(alloc, 24, 0) == Some(CabErr::Order { at: 24 }));
    assert!(rt; changed_two(alloc, 135, 1) == Some(CabErr::Order { at: 120 }));
    assert!(rt; changed(alloc, 44, &[1]) == Some(CabErr::Range { at: 44 }));
    assert!(rt; changed(alloc, 52, &[2]) == Some(CabErr::Range { at: 52 }));
    assert!(rt; changed(alloc, 52, &[0]) == Some(CabErr::Range { at: 104 }));
    // A home above the count, two references to no object, and an outside bundle that nothing names.
    assert!(rt; changed(alloc, 100, &[2]) == Some(CabErr::Ref { at: 100 }));
    assert!(rt; changed(alloc, 79, &[2]) == Some(CabErr::Ref { at: 64 }));
    assert!(rt; changed(alloc, 100, &[0]) == Some(CabErr::Ref { at: 84 }));
    assert!(rt; changed(alloc, 99, &[1, 0]) == Some(CabErr::Ref { at: 8 }));
    let mut longer = [0; 105];
    longer[..104].copy_from_slice(&TABLE);
    assert!(rt; read(alloc, &longer, b"A").err() == Some(CabErr::Trailing { at: 104 }));
    assert!(rt; without_nodes(alloc) == Some(CabErr::Nodes));
}

#[test]
fn counts_are_not_believed(rt: HostRuntime) {
    let most = [0xff; 4];
    assert!(rt; changed(rt.alloc(), 4, &most) == Some(CabErr::Order { at: 40 }));
    assert!(rt; changed(rt.alloc(), 24, &most) == Some(CabErr::Short { at: 104 }));
    assert!(rt; changed(rt.alloc(), 60, &most) == Some(CabErr::Short { at: 104 }));
}

/// Where the field begins that a table of so many bytes ends in.
fn field_at(len: usize) -> u64 {
    let fields = [100, 84, 80, 64, 60, 52, 44, 28, 24, 8, 4];
    for at in fields {
        if at <= len {
            return at as u64;
        }
    }
    0
}

#[test]
fn cuts_are_short(rt: HostRuntime) {
    for len in 0..TABLE.len() {
        let fault = read(rt.alloc(), &TABLE[..len], b"A").err();
        assert!(rt; fault == Some(CabErr::Short { at: field_at(len) }), "{len}");
    }
}
