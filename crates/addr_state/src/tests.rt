// A state written out by hand from docs/formats/content-state.md, what is read of it, and a row for each fault: proofs say
// that what is read and written are those of the definitions, and these that the definitions are the format's.
use super::*;
use addr_base::{Digest, Guid, Items, NoMemory, Text};
use std::alloc::Global;
use std::test::*;

/// Two bundles of one group, and one of another; the last two share an object, and the first has no fixed group.
const STATE: &str =
    r#"{"bundles":[{"digest":"000102030405060708090a0b0c0d0eff","entries":["000000000000000000000000000000a1","000000000000000000000000000000a2"],"file":"local/Core~20A_assets_all_000102030405060708090a0b0c0d0eff.bundle","group":"Core A","id":"local/x","name":"Core~20A_assets_all","objects":["000000000000000000000000000000a1","000000000000000000000000000000a2","000000000000000000000000000000b0"],"size":18446744073709551615},{"digest":"ff0102030405060708090a0b0c0d0e00","entries":["000000000000000000000000000000a3"],"file":"remote/Skin_labels_ff0102030405060708090a0b0c0d0e00.bundle","group":"Skin","id":"","name":"Skin_labels","objects":["000000000000000000000000000000a3","000000000000000000000000000000b0"],"size":0}],"fixed":["Core A","Old"],"version":1}"#;

const FIRST: Digest = Digest([0, 1, 2, 3, 4, 5, 6, 7, 8, 9, 10, 11, 12, 13, 14, 255]);

fn guid(last: u8) -> Guid {
    Guid([0, 0, 0, 0, 0, 0, 0, 0, 0, 0, 0, 0, 0, 0, 0, last])
}

fn is_the_state(state: &State) -> bool {
    match (state.bundles.as_slice(), state.fixed.as_slice()) {
        ([core, skin], [first, second]) => {
            let core_is = core.name.as_str() == "Core~20A_assets_all"
                && core.group.as_str() == "Core A"
                && core.id.as_str() == "local/x"
                && core.digest == FIRST
                && core.size == 18446744073709551615;
            let lists_are = core.entries.as_slice() == [guid(0xa1), guid(0xa2)].as_slice()
                && core.objects.as_slice() == [guid(0xa1), guid(0xa2), guid(0xb0)].as_slice()
                && skin.entries.as_slice() == [guid(0xa3)].as_slice();
            let skin_is = skin.file.as_str()
                == "remote/Skin_labels_ff0102030405060708090a0b0c0d0e00.bundle"
                && skin.size == 0;
            core_is
                && lists_are
                && skin_is
                && first.as_str() == "Core A"
                && second.as_str() == "Old"
        }
        _ => false,
    }
}

#[test]
fn a_state_is_read_and_written(rt: HostRuntime) -> Result<(), Fail> {
    let state = read_state(rt.alloc(), STATE.as_bytes())
        .ok()
        .ok_or("a state")?;
    assert!(rt; is_the_state(&state));
    let bytes = write_state(rt.alloc(), &state).ok().ok_or("memory")?;
    assert!(rt; bytes.as_slice() == STATE.as_bytes());
    Ok(())
}

fn fault_of(alloc: Global, text: &str) -> Option<StateErr> {
    read_state(alloc, text.as_bytes()).err()
}

#[test]
fn small_texts_have_their_faults(rt: HostRuntime) -> Result<(), Fail> {
    for (text, want) in [
        ("x", StateErr::Json),
        ("{}", StateErr::Member),
        ("[]", StateErr::Member),
        (
            r#"{"bundles":[{}],"fixed":[],"version":1}"#,
            StateErr::Row { n: 0 },
        ),
    ] {
        assert!(rt; fault_of(rt.alloc(), text) == Some(want), "{text}");
    }
    assert!(rt; fault_of(rt.alloc(), r#"{"bundles":[],"fixed":[],"version":1}"#).is_none());
    Ok(())
}

/// In each row a piece of the state's text is another, at each of its places; the fault is that of the first rule broken.
#[test]
fn each_rule_has_its_fault(rt: HostRuntime) -> Result<(), Fail> {
    for (piece, other, want) in [
        // the top members
        ("\"version\":1", "\"version\":2", StateErr::Member),
        ("\"version\":1", "\"version\":1.0", StateErr::Member),
        ("\"version\":1", "\"Version\":1", StateErr::Member),
        (
            "\"fixed\":[\"Core A\",\"Old\"]",
            "\"fixed\":null",
            StateErr::Member,
        ),
        (
            "[\"Core A\",\"Old\"]",
            "[\"Old\",\"Core A\"]",
            StateErr::Member,
        ),
        (
            "[\"Core A\",\"Old\"]",
            "[\"Old\",\"Old\"]",
            StateErr::Member,
        ),
        ("[\"Core A\",\"Old\"]", "[1]", StateErr::Member),
        ("\"bundles\":[", "\"bundle\":[", StateErr::Member),
        // a member of a bundle
        ("\"id\":\"\"", "\"ids\":\"\"", StateErr::Row { n: 1 }),
        ("\"size\":0", "\"size\":-1", StateErr::Row { n: 1 }),
        (
            "\"digest\":\"ff01",
            "\"digest\":\"FF01",
            StateErr::Row { n: 1 },
        ),
        // its group, name and file
        (
            "\"group\":\"Core A\"",
            "\"group\":\"\"",
            StateErr::Row { n: 0 },
        ),
        (
            "\"group\":\"Core A\"",
            "\"group\":\"Core B\"",
            StateErr::Row { n: 0 },
        ),
        ("Skin", "Bkin", StateErr::Row { n: 1 }),
        ("Skin_labels", "Skin_labels.x", StateErr::Row { n: 1 }),
        ("remote/Skin", "other/Skin", StateErr::Row { n: 1 }),
        ("0e00.bundle", "0e01.bundle", StateErr::Row { n: 1 }),
        // its lists
        (
            "\"entries\":[\"000000000000000000000000000000a1\",\"000000000000000000000000000000a2\"]",
            "\"entries\":[\"000000000000000000000000000000a2\",\"000000000000000000000000000000a1\"]",
            StateErr::Row { n: 0 },
        ),
        (
            "a3\",\"000000000000000000000000000000b0",
            "a3\",\"000000000000000000000000000000a3",
            StateErr::Row { n: 1 },
        ),
        (
            "\"entries\":[\"000000000000000000000000000000a3\"]",
            "\"entries\":[\"000000000000000000000000000000a4\"]",
            StateErr::Row { n: 1 },
        ),
        (
            "000000000000000000000000000000a3",
            "000000000000000000000000000000a2",
            StateErr::Row { n: 1 },
        ),
    ] {
        let text = STATE.replace(rt.alloc(), piece, other)?;
        assert!(rt;
            fault_of(rt.alloc(), text.as_str()) == Some(want),
            "{other}"
        );
    }
    Ok(())
}

/// A top member is tested before any bundle, and an earlier bundle before a later one.
#[test]
fn the_first_fault_is_told(rt: HostRuntime) -> Result<(), Fail> {
    let text = STATE.replace(rt.alloc(), "\"id\":\"", "\"ids\":\"")?;
    assert!(rt; fault_of(rt.alloc(), text.as_str()) == Some(StateErr::Row { n: 0 }));
    let both = text.replace(rt.alloc(), "\"version\":1", "\"version\":0")?;
    assert!(rt; fault_of(rt.alloc(), both.as_str()) == Some(StateErr::Member));
    Ok(())
}

/// A state whose bundles are so many empty objects.
fn many(alloc: Global, count: usize) -> Result<String, NoMemory> {
    let mut text = String::from_str(alloc, r#"{"bundles":[{}"#)?;
    for _ in 1..count {
        text.push_str(",{}")?;
    }
    text.push_str(r#"],"fixed":[],"version":1}"#)?;
    Ok(text)
}

#[test]
fn too_many_bundles_are_a_fault_of_the_member(rt: HostRuntime) -> Result<(), Fail> {
    for (count, want) in [(65536, StateErr::Row { n: 0 }), (65537, StateErr::Member)] {
        let text = many(rt.alloc(), count).ok().ok_or("memory")?;
        assert!(rt;
            fault_of(rt.alloc(), text.as_str()) == Some(want),
            "{count}"
        );
    }
    Ok(())
}

/// Both sides' files of a bundle, and the name that they share.
fn names(alloc: Global) -> Result<(Text, Text, Text), NoMemory> {
    let name = file_name(alloc, "Skin_labels", FIRST)?;
    let local = side_file(alloc, false, "Skin_labels", FIRST)?;
    let remote = side_file(alloc, true, "Skin_labels", FIRST)?;
    Ok((name, local, remote))
}

#[test]
fn files_are_named_by_name_digest_and_side(rt: HostRuntime) -> Result<(), Fail> {
    let (name, local, remote) = names(rt.alloc()).ok().ok_or("memory")?;
    assert!(rt; name.as_str() == "Skin_labels_000102030405060708090a0b0c0d0eff.bundle");
    assert!(rt; local.as_str() == "local/Skin_labels_000102030405060708090a0b0c0d0eff.bundle");
    assert!(rt; remote.as_str() == "remote/Skin_labels_000102030405060708090a0b0c0d0eff.bundle");
    Ok(())
}
