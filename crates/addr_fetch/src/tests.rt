// What no clause says: that each call can succeed, and what is read below a real folder.
use crate::{Collected, Fetch, Fetched, FolderFetch, Gate, MemFetch, OpenGate, Pour, Poured};
use addr_base::{BundleNo, Items, MemFile, NoMemory, Text};
use std::alloc::Global;
use std::fs;
use std::test::Fail;

fn one_file(alloc: Global, name: &str, bytes: &[u8]) -> Result<Vec<MemFile>, Fail> {
    let mut files = Vec::new(alloc);
    files.push(MemFile {
        name: Text::copy_of(alloc, name)?,
        bytes: Items::copy_of(alloc, bytes)?,
    })?;
    Ok(files)
}

/// What was poured, and the length of each piece.
#[derive(Drop)]
struct Pieces {
    bytes: Vec<u8>,
    lengths: Vec<usize>,
}

impl Pour for Pieces {
    ghost use Rattle.std.specs.Prelude.{◌≡◌};

    type Fixed = ();

    ghost took = { λ pieces fed. pieces.bytes.items ≡ fed };

    ghost fixed = { λ _. tt };

    fn pour(&mut self, piece: &[u8]) -> Result<(), NoMemory> {
        self.lengths.push(piece.len())?;
        self.bytes.extend_from_slice(piece)?;
        Ok(())
    }
}

fn no_pieces(alloc: Global) -> Pieces {
    Pieces {
        bytes: Vec::new(alloc),
        lengths: Vec::new(alloc),
    }
}

#[test]
fn pours_in_pieces_of_the_size_that_is_set(rt: HostRuntime) -> Result<(), Fail> {
    let files = one_file(rt.alloc(), "local/a", b"12345")?;
    let mut fetch = MemFetch::new(files, Vec::new(rt.alloc()));
    let mut into = no_pieces(rt.alloc());
    fetch.set_piece(2);
    assert_eq!(rt;
        fetch.fetch_to(rt.alloc(), "local/a", 5, &mut into),
        Poured::Whole(5)
    );
    assert_eq!(rt; into.bytes.as_slice(), b"12345".as_slice());
    assert_eq!(rt; into.lengths.as_slice(), [2, 2, 1].as_slice());
    Ok(())
}

/// So many bytes, which repeat after 251.
fn patterned(alloc: Global, len: usize) -> Result<Vec<u8>, Fail> {
    let mut bytes = Vec::new(alloc);
    for place in 0..len {
        bytes.push((place % 251) as u8)?;
    }
    Ok(bytes)
}

#[test]
fn pours_what_a_real_file_holds(rt: HostRuntime) -> Result<(), Fail> {
    let bytes = patterned(rt.alloc(), 70_000)?;
    assert!(rt; fs::create_dir_all(&rt, "pour_test").is_ok());
    assert!(rt; fs::write(&rt, "pour_test/a", bytes.as_slice()).is_ok());
    let mut fetch = FolderFetch::new(&rt, Text::copy_of(rt.alloc(), "pour_test")?);
    let mut into = no_pieces(rt.alloc());
    assert_eq!(rt;
        fetch.fetch_to(rt.alloc(), "a", 70_000, &mut into),
        Poured::Whole(70_000)
    );
    assert_eq!(rt; into.bytes.as_slice(), bytes.as_slice());
    assert!(rt; into.lengths.len() > 1);
    assert!(rt; fs::remove_dir_all(&rt, "pour_test").is_ok());
    Ok(())
}

#[test]
fn a_file_is_whole_however_it_is_cut(rt: HostRuntime) -> Result<(), Fail> {
    let files = one_file(rt.alloc(), "local/a", b"12345")?;
    let mut fetch = MemFetch::new(files, Vec::from_slice(rt.alloc(), &[4])?);
    for (piece, limit, want) in [
        (1, 5, Poured::Whole(5)),
        (2, 9, Poured::Whole(5)),
        (7, 4, Poured::TooLong(5)),
        (7, 5, Poured::Fault(1)),
    ] {
        fetch.set_piece(piece);
        let mut into = Collected::new(rt.alloc());
        let poured = fetch.fetch_to(rt.alloc(), "local/a", limit, &mut into);
        assert_eq!(rt; poured, want);
        if let Poured::Whole(_) = poured {
            assert_eq!(rt; into.into_items().as_slice(), b"12345".as_slice());
        }
    }
    assert!(rt; matches!(fetch.fetch(rt.alloc(), "local/b", 5), Fetched::Missing));
    OpenGate.before(BundleNo(0));
    OpenGate.after(BundleNo(0));
    Ok(())
}

#[test]
fn opens_files_below_its_folder_alone(rt: HostRuntime) -> Result<(), Fail> {
    assert!(rt; fs::create_dir_all(&rt, "fetch_test/local/folder").is_ok());
    assert!(rt; fs::write(&rt, "fetch_test/local/a", b"123").is_ok());
    let mut fetch = FolderFetch::new(&rt, Text::copy_of(rt.alloc(), "fetch_test")?);
    for (id, limit, want) in [
        ("local/a", 3, Poured::Whole(3)),
        ("local/a", 2, Poured::TooLong(3)),
        ("local/b", 3, Poured::Missing),
        ("local/../local/a", 3, Poured::Missing),
        ("/fetch_test/local/a", 3, Poured::Missing),
        ("http://h/local/a", 3, Poured::Missing),
        ("local/folder", 1 << 20, Poured::Fault(1)),
    ] {
        let mut into = Collected::new(rt.alloc());
        assert_eq!(rt; fetch.fetch_to(rt.alloc(), id, limit, &mut into), want);
    }
    assert!(rt; fs::remove_dir_all(&rt, "fetch_test").is_ok());
    Ok(())
}
