// Files from outside: a worked file, its other forms, its faults, hostile counts and sizes, and what is left of it when it
// is cut or changed. Proofs say that each answer is the right one of the definition; these say that the definition is.
ghost use Rattle.std.specs.Prelude.{◌+◌, ◌≤◌, ◌<◌, ◌^◌, length};

use super::*;
use addr_base::{Items, NoMemory, Text};
use std::alloc::{AllocError, Global};
use std::test::*;

/// One node `a` with the bytes `xyz`, as the player 2021.3.0f1 has it: header, 15 zeros, blocks info, data.
const FILE: [u8; 123] = *b"UnityFS\0\0\0\0\x075.x.x\x002021.3.0f1\0\
\0\0\0\0\0\0\0\x7b\0\0\0\x38\0\0\0\x38\0\0\0\x40\
\0\0\0\0\0\0\0\0\0\0\0\0\0\0\0\
\0\0\0\0\0\0\0\0\0\0\0\0\0\0\0\0\
\0\0\0\x01\0\0\0\x03\0\0\0\x03\0\0\
\0\0\0\x01\0\0\0\0\0\0\0\0\0\0\0\0\0\0\0\x03\0\0\0\0a\0\
xyz";

const HEADER: usize = 49;

const INFO: usize = 64;

const DATA: usize = 120;

fn join(alloc: Global, head: &[u8], middle: &[u8], tail: &[u8]) -> Result<Vec<u8>, AllocError> {
    let mut file = Vec::from_slice(alloc, head)?;
    file.extend_from_slice(middle)?;
    file.extend_from_slice(tail)?;
    Ok(file)
}

fn header(version: u8, len: u8, flags: [u8; 2]) -> [u8; 49] {
    let mut header = [0; 49];
    header.copy_from_slice(&FILE[..HEADER]);
    header[11] = version;
    header[36] = len;
    header[47] = flags[0];
    header[48] = flags[1];
    header
}

/// Whether the answer is the one node, of this version and with its data at this place.
fn is_example(answer: Result<Bundle, FsErr>, version: u32, start: u64) -> bool {
    let Ok(bundle) = answer else {
        return false;
    };
    let Some(node) = bundle.nodes.get(0) else {
        return false;
    };
    let whole = bundle.nodes.len() == 1 && node.path.as_str() == "a" && node.flags == 0;
    whole
        && node.offset == 0
        && node.size == 3
        && bundle.version == version
        && bundle.start == start
}

fn changed(alloc: Global, at: usize, bytes: &[u8]) -> Option<FsErr>
    requires { at + length bytes.now ≤ 123 }
{
    let mut file = FILE;
    file[at..at + bytes.len()].copy_from_slice(bytes);
    read_bundle(alloc, &file).err()
}

/// The file of one node `a` that has these bytes.
fn write_one(alloc: Global, bytes: &[u8]) -> Result<Vec<u8>, NoMemory>
    requires { length bytes.now < 2 ^ 20 }
{
    let node = NodeOut {
        path: Text::copy_of(alloc, "a")?,
        flags: 0,
        bytes: Items::copy_of(alloc, bytes)?,
    };
    write_bundle(alloc, "2021.3.0f1", &[node])
}

fn write_none(alloc: Global) -> Result<Vec<u8>, NoMemory> {
    write_bundle(alloc, "", &[])
}

#[test]
fn the_worked_file_is_written(rt: HostRuntime) {
    let file = write_one(rt.alloc(), b"xyz").ok();
    assert!(rt; file.is_some_and(|file| file.as_slice() == FILE.as_slice()));
}

#[test]
fn sizes_are_told_by_lengths(rt: HostRuntime) {
    let node = |path, bytes| NodeSize { path, bytes };
    assert!(rt; bundle_size(10, &[node(1, 3)]) == 123);
    assert!(rt; bundle_size(10, &[node(1, 262149)]) == 120 + 20 + 262149);
    assert!(rt; bundle_size(0, &[]) == 48 + 24);
    assert!(rt; bundle_size(10, &[node(1, u64::MAX), node(1, u64::MAX)]) == u64::MAX);
    assert!(rt; bundle_size(u64::MAX, &[node(u64::MAX, 1 << 63)]) == u64::MAX);
}

#[test]
fn data_is_cut_into_blocks(rt: HostRuntime) -> Result<(), Fail> {
    let bytes = vec![in rt.alloc(); 7u8; 262149]?;
    let file = write_one(rt.alloc(), &bytes).ok().ok_or("memory")?;
    // Three rows of blocks, the last of 5 bytes, make the blocks info 20 bytes longer.
    assert_eq!(rt; file.len(), DATA + 20 + 262149);
    assert_eq!(rt; &file[80..84], [0, 0, 0, 3].as_slice());
    assert_eq!(rt; &file[84..94], [0, 2, 0, 0, 0, 2, 0, 0, 0, 0].as_slice());
    assert_eq!(rt; &file[104..114], [0, 0, 0, 5, 0, 0, 0, 5, 0, 0].as_slice());
    let bundle = read_bundle(rt.alloc(), &file).ok().ok_or("a bundle")?;
    assert!(rt; bundle.start == 140 && bundle.nodes.get(0).is_some_and(|node| node.size == 262149));
    let none = write_none(rt.alloc()).ok().ok_or("memory")?;
    assert_eq!(rt; none.len(), 48 + 24);
    assert!(rt; read_bundle(rt.alloc(), &none).is_ok_and(|bundle| bundle.nodes.is_empty()));
    Ok(())
}

#[test]
fn other_forms_are_read(rt: HostRuntime) -> Result<(), Fail> {
    let alloc = rt.alloc();
    let (info, data) = (&FILE[INFO..DATA], &FILE[DATA..]);
    let sixth = join(alloc, &header(6, 108, [0, 0x40]), info, data)?;
    assert!(rt; is_example(read_bundle(alloc, &sixth), 6, 105));
    let eighth = join(alloc, &header(8, 123, [0, 0x40]), &FILE[HEADER..DATA], data)?;
    assert!(rt; is_example(read_bundle(alloc, &eighth), 8, 120));
    let padded_data = b"\0\0\0\0\0\0\0\0\0\0\0\0\0\0\0xyz";
    let at_end = join(alloc, &header(7, 123, [0, 0xc0]), padded_data, info)?;
    assert!(rt; is_example(read_bundle(alloc, &at_end), 7, 64));
    let padded = join(
        alloc,
        &header(7, 131, [2, 0x40]),
        &FILE[HEADER..DATA],
        b"........xyz",
    )?;
    assert!(rt; is_example(read_bundle(alloc, &padded), 7, 128));
    let left_over = join(
        alloc,
        &header(7, 125, [0, 0x40]),
        &FILE[HEADER..DATA],
        b"xyz..",
    )?;
    assert!(rt; is_example(read_bundle(alloc, &left_over), 7, 120));
    Ok(())
}

/// The worked file with its node twice.
fn twice(alloc: Global) -> Result<Vec<u8>, AllocError> {
    let mut front = [0; 98];
    front.copy_from_slice(&FILE[..98]);
    front[36] = 145;
    front[40] = 78;
    front[44] = 78;
    front[97] = 2;
    join(alloc, &front, &FILE[98..DATA], &FILE[98..])
}

#[test]
fn faults_are_named(rt: HostRuntime) {
    let alloc = rt.alloc();
    let repeated = twice(alloc).ok();
    assert!(rt;
        repeated.is_some_and(|file| {
            read_bundle(alloc, &file).err() == Some(FsErr::Path { node: 1 })
        })
    );
    assert!(rt; changed(alloc, 91, &[4]) == Some(FsErr::Blocks { said: 4, found: 3 }));
    assert!(rt; changed(alloc, 47, &[2]) == Some(FsErr::Short { at: 123 }));
    assert!(rt; changed(alloc, 48, &[0x43]) == Some(FsErr::Compressed { kind: 3 }));
    assert!(rt; changed(alloc, 93, &[3]) == Some(FsErr::Compressed { kind: 3 }));
    assert!(rt; changed(alloc, 48, &[0]) == Some(FsErr::NotCombined));
    assert!(rt; changed(alloc, 113, &[4]) == Some(FsErr::NodeRange { node: 0 }));
    assert!(rt;
        changed(alloc, 36, &[124])
            == Some(FsErr::Size {
                said: 124,
                found: 123
            })
    );
    assert!(rt; changed(alloc, 0, &[85, 110, 120]) == Some(FsErr::Signature));
    assert!(rt; changed(alloc, 11, &[9]) == Some(FsErr::Version(9)));
    assert!(rt;
        changed(alloc, 40, &[57])
            == Some(FsErr::Blocks {
                said: 57,
                found: 56
            })
    );
    assert!(rt; changed(alloc, 118, &[0xff]) == Some(FsErr::Path { node: 0 }));
    assert!(rt; changed(alloc, 87, &[4, 0, 0, 0, 4]) == Some(FsErr::Blocks { said: 4, found: 3 }));
}

#[test]
fn counts_and_sizes_are_not_believed(rt: HostRuntime) {
    let alloc = rt.alloc();
    let most = [0xff; 8];
    assert!(rt; changed(alloc, 80, &most[..4]) == Some(FsErr::Blocks { said: 0, found: 1 }));
    assert!(rt; changed(alloc, 94, &most[..4]) == Some(FsErr::Short { at: 120 }));
    assert!(rt; changed(alloc, 37, &most) == Some(FsErr::Short { at: 123 }));
    assert!(rt;
        changed(alloc, 29, &most)
            == Some(FsErr::Size {
                said: -1,
                found: 123
            })
    );
    assert!(rt;
        changed(alloc, 29, &[0x80])
            == Some(FsErr::Size {
                said: -9223372036854775685,
                found: 123
            })
    );
    assert!(rt;
        changed(alloc, 84, &most)
            == Some(FsErr::Blocks {
                said: 4294967295,
                found: 3
            })
    );
    assert!(rt; changed(alloc, 98, &most) == Some(FsErr::NodeRange { node: 0 }));
    assert!(rt; changed(alloc, 106, &most) == Some(FsErr::NodeRange { node: 0 }));
    assert!(rt; changed(alloc, 98, &[0x80]) == Some(FsErr::NodeRange { node: 0 }));
    assert!(rt;
        changed(
            alloc,
            106,
            &[0x7f, 0xff, 0xff, 0xff, 0xff, 0xff, 0xff, 0xff]
        ) == Some(FsErr::NodeRange { node: 0 })
    );
}

/// Where the field begins that a file of so many bytes ends in.
fn field_at(len: usize) -> u64 {
    let fields = [45, 41, 37, 29, 18, 12, 8];
    for at in fields {
        if at <= len {
            return at as u64;
        }
    }
    len as u64
}

#[test]
fn prefixes_and_changed_bytes_are_answered(rt: HostRuntime) {
    let alloc = rt.alloc();
    for len in 0..FILE.len() {
        let found = read_bundle(alloc, &FILE[..len]).err();
        let want = if len < HEADER {
            FsErr::Short { at: field_at(len) }
        } else {
            FsErr::Size {
                said: 123,
                found: len as u64,
            }
        };
        assert!(rt; found == Some(want), "{len}");
    }
    for at in 0..FILE.len() {
        for byte in [0, 1, 0x80, 0xff] {
            assert!(rt;
                changed(alloc, at, &[byte]) != Some(FsErr::NoMemory),
                "{at}"
            );
        }
    }
}

/// A reader of a file of `total` bytes that was fed these bytes in pieces of a size.
fn fed(alloc: Global, total: u64, bytes: &[u8], size: usize) -> Option<BundleReader>
    requires { 0 < size }
{
    let mut reader = BundleReader::begin(alloc, total);
    for piece in bytes.chunks(size) {
        reader.feed(piece).ok()?;
    }
    Some(reader)
}

/// The fault of a file that came whole, with the digest of these bytes.
fn fault_of(reader: BundleReader, bytes: &[u8]) -> Option<FsErr> {
    match reader.finish() {
        Ok(Arrived::File { digest, read }) if digest == addr_base::digest(bytes) => read.err(),
        _ => None,
    }
}

fn is_size(reader: BundleReader, count: u64) -> bool {
    reader.finish().is_ok_and(|arrived| matches!(arrived, Arrived::Size { got } if got == count))
}

/// Whether the first bytes of the worked file, as a file of their own, have the fault that they are read with, and are
/// no fault but a size of the worked file's length.
fn front_is_told(alloc: Global, len: usize, size: usize) -> Option<bool>
    requires { (len ≤ 123) × (0 < size) }
{
    let front = &FILE[..len];
    let fault = read_bundle(alloc, front).err();
    let whole = fed(alloc, len as u64, front, size)?;
    let is_told = whole.early() == fault && fault_of(whole, front) == fault;
    let cut = fed(alloc, 123, front, size)?;
    Some(is_told && cut.early() == None && is_size(cut, len as u64))
}

#[test]
fn a_version_is_told_at_its_last_byte(rt: HostRuntime) -> Result<(), Fail> {
    let alloc = rt.alloc();
    let mut file = FILE;
    file[11] = 9;
    let mut reader = BundleReader::begin(alloc, 123);
    for n in 0..123 {
        let told = if n < 12 {
            None
        } else {
            Some(FsErr::Version(9))
        };
        assert!(rt; reader.early() == told);
        assert!(rt; reader.held() == if n < 12 { n as u64 } else { 12 });
        reader.feed(&file[n..n + 1]).ok().ok_or("memory")?;
    }
    assert!(rt; reader.held() == 12);
    assert!(rt; fault_of(reader, &file) == Some(FsErr::Version(9)));
    let longer = fed(alloc, 124, &file, 1).ok_or("memory")?;
    assert!(rt; is_size(longer, 123));
    Ok(())
}

#[test]
fn pieces_do_not_matter(rt: HostRuntime) -> Result<(), Fail> {
    let alloc = rt.alloc();
    for size in [1, 7, 4096] {
        let reader = fed(alloc, 123, &FILE, size).ok_or("memory")?;
        assert!(rt; reader.early() == None && reader.held() == 123);
        let Some(Arrived::File { digest, read }) = reader.finish().ok() else {
            return Err(Fail::from("a file"));
        };
        assert!(rt; digest == addr_base::digest(&FILE));
        let (bytes, bundle) = read.ok().ok_or("a bundle")?;
        assert!(rt; bytes.as_slice() == FILE.as_slice());
        assert!(rt; is_example(Ok(bundle), 7, 120));
        for len in 0..FILE.len() {
            assert!(rt; front_is_told(alloc, len, size) == Some(true), "{len}");
        }
    }
    Ok(())
}

#[test]
fn counts_are_told_when_the_info_is_in(rt: HostRuntime) -> Result<(), Fail> {
    let alloc = rt.alloc();
    for size in [1, 7, 4096] {
        for (at, fault) in [
            (80, FsErr::Blocks { said: 0, found: 1 }),
            (94, FsErr::Short { at: 120 }),
        ] {
            let mut file = FILE;
            file[at..at + 4].copy_from_slice(&[0xff; 4]);
            let before = fed(alloc, 123, &file[..119], size).ok_or("memory")?;
            assert!(rt; before.early() == None);
            let told = fed(alloc, 123, &file[..120], size).ok_or("memory")?;
            assert!(rt; told.early() == Some(fault) && told.held() == 120);
            let whole = fed(alloc, 123, &file, size).ok_or("memory")?;
            assert!(rt; whole.early() == Some(fault) && fault_of(whole, &file) == Some(fault));
        }
    }
    let data = b"\0\0\0\0\0\0\0\0\0\0\0\0\0\0\0xyz";
    let file = join(alloc, &header(7, 123, [0, 0xc0]), data, &FILE[INFO..DATA])?;
    let at_end = fed(alloc, 123, &file, 7).ok_or("memory")?;
    assert!(rt; at_end.early() == None);
    assert!(rt;
        at_end.finish().is_ok_and(|arrived| {
            matches!(arrived, Arrived::File { read: Ok((_, bundle)), .. } if bundle.start == 64)
        })
    );
    Ok(())
}
