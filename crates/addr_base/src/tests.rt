// What no clause says: values from outside, and that each call can succeed.
use crate::{
    Depot, DepotErr, Digest, FolderDepot, Guid, MemDepot, MemSink, OutSink, Sink, Text, Var,
    braces, digest, token, untoken, untoken_bytes,
};
use std::alloc::Global;
use std::fs;
use std::io::Read;
use std::test::Fail;

#[test]
fn writes_and_reads_tokens(rt: HostRuntime) -> Result<(), Fail> {
    for (text, want) in [
        ("", "%"),
        ("a b", "a%20b"),
        ("100%,", "100%25%2C"),
        ("é", "%C3%A9"),
    ] {
        let made = token(rt.alloc(), text)?;
        assert_eq!(rt; made.as_str(), want);
        for found in [
            untoken(rt.alloc(), made.as_str())?,
            untoken_bytes(rt.alloc(), want.as_bytes())?,
        ] {
            match found {
                Some(read) => assert_eq!(rt; read.as_str(), text),
                None => assert!(rt; false, "{want}"),
            }
        }
    }
    for bytes in ["", "%-", "%41", "%c3%a9", "%FF", "%2", "a b", "a,b", "%20%"] {
        assert!(rt;
            untoken_bytes(rt.alloc(), bytes.as_bytes())?.is_none(),
            "{bytes}"
        );
    }
    Ok(())
}

#[test]
fn cuts_and_prints_digests(rt: HostRuntime) -> Result<(), Fail> {
    let text = format!(in rt.alloc(); "{}", digest(b"abc"))?;
    assert_eq!(rt; text.as_str(), "ba7816bf8f01cfea414140de5dae2223");
    assert_eq!(rt; Digest::parse(text.as_str()), Some(digest(b"abc")));
    let guid = Guid::parse(text.as_str());
    assert_eq!(rt; guid, Some(Guid(digest(b"abc").0)));
    assert_eq!(rt; Guid::parse("BA7816BF8F01CFEA414140DE5DAE2223"), None);
    Ok(())
}

fn variable(alloc: Global, name: &str, value: &str) -> Result<Var, Fail> {
    Ok(Var {
        name: Text::copy_of(alloc, name)?,
        value: Text::copy_of(alloc, value)?,
    })
}

#[test]
fn puts_values_for_names_in_braces(rt: HostRuntime) -> Result<(), Fail> {
    let vars = [
        variable(rt.alloc(), "Host", "h")?,
        variable(rt.alloc(), "Host", "k")?,
        variable(rt.alloc(), "Loop", "{Host}")?,
    ];
    for (text, want) in [
        ("{Host}/{Port}/a", "h/{Port}/a"),
        ("{Loop}", "{Host}"),
        ("{{Host}}", "{h}"),
        ("}{Host", "}{Host"),
    ] {
        let made = braces(rt.alloc(), text, &vars)?;
        assert_eq!(rt; made.as_str(), want);
    }
    Ok(())
}

#[test]
fn puts_and_reads_in_memory(rt: HostRuntime) {
    let mut depot = MemDepot::new(Vec::new(rt.alloc()), Vec::new(rt.alloc()));
    assert_eq!(rt; depot.put(rt.alloc(), "b/c", b"2"), Ok(()));
    assert!(rt; matches!(depot.read(rt.alloc(), "b/c"), Ok(Some(_))));
    let mut sink = MemSink::new(rt.alloc(), Vec::new(rt.alloc()));
    assert!(rt; sink.put(b"12").is_ok());
}

#[test]
fn replaces_files_below_the_working_folder(rt: HostRuntime) {
    let mut depot = FolderDepot::new(&rt);
    assert!(rt; matches!(depot.read(rt.alloc(), "base_test/a/b"), Ok(None)));
    for bytes in ["1", "22"] {
        assert_eq!(rt;
            depot.put(rt.alloc(), "base_test/a/b", bytes.as_bytes()),
            Ok(())
        );
        match depot.read(rt.alloc(), "base_test/a/b") {
            Ok(Some(found)) => assert_eq!(rt; found.as_slice(), bytes.as_bytes()),
            _ => assert!(rt; false, "{bytes}"),
        }
    }
    assert!(rt; matches!(depot.read(rt.alloc(), "base_test/a"), Err(DepotErr::Fault)));
    assert_eq!(rt;
        depot.put(rt.alloc(), "base_test/a", b"3"),
        Err(DepotErr::Fault)
    );
    assert!(rt; matches!(depot.read(rt.alloc(), "base_test/a/b"), Ok(Some(_))));
    assert!(rt; fs::remove_dir_all(&rt, "base_test").is_ok());
}

/// A put that wrote over the old file would show a reader parts of both.
#[test]
fn lets_a_reader_finish_the_old_file(rt: HostRuntime) -> Result<(), Fail> {
    let mut depot = FolderDepot::new(&rt);
    assert_eq!(rt; depot.put(rt.alloc(), "base_old/f", b"old"), Ok(()));
    let mut reader = fs::open(&rt, "base_old/f")?;
    assert_eq!(rt; depot.put(rt.alloc(), "base_old/f", b"newer"), Ok(()));
    let mut seen = Vec::new(rt.alloc());
    reader.read_to_end(&mut seen)?;
    assert_eq!(rt; seen.as_slice(), b"old".as_slice());
    assert!(rt; fs::remove_dir_all(&rt, "base_old").is_ok());
    Ok(())
}

/// Each kind of failing put, and what the depot tells afterwards.
#[test]
fn fails_with_and_without_effect(rt: HostRuntime) -> Result<(), Fail> {
    let mut depot = MemDepot::new(Vec::new(rt.alloc()), Vec::from_slice(rt.alloc(), &[1])?);
    depot.fail_at(2, true)?;
    depot.fail_at(3, false)?;
    for (bytes, kept) in [("1", ""), ("2", "2"), ("3", "2")] {
        assert_eq!(rt;
            depot.put(rt.alloc(), "f", bytes.as_bytes()),
            Err(DepotErr::Fault)
        );
        let found = depot.file("f").unwrap_or(b"");
        assert_eq!(rt; found, kept.as_bytes(), "{bytes}");
    }
    Ok(())
}

#[test]
fn writes_to_standard_output(rt: HostRuntime) {
    let mut sink = OutSink::new(&rt);
    assert!(rt; sink.put(b"written by a test\n").is_ok());
}
