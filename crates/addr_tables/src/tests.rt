// Tables from outside: each text was made by another program. Proofs say that each answer is the one of the definitions; these
// say that the definitions are those of the tables, and that the calls succeed with ample memory.
ghost use Rattle.std.specs.Prelude.{◌<◌, IsTrue, length};

use super::*;
use addr_base::{NoMemory, Text};
use addr_keys::Key;
use std::alloc::Global;
use std::test::*;

/// The tables of the one text `tree` with one entry.
const KEY: &str = "AQAAAAAEAAAAdHJlZQ==";

const BUCKET: &str = "AQAAAAQAAAABAAAAAAAAAA==";

const ENTRY: &str = "AQAAAAAAAAAAAAAA/////wAAAAD/////AAAAAAAAAAA=";

/// A key of each kind and three entries: the last key stands first, a byte stands before each, `tree` is in UTF-16, and two
/// entries share the one extra object.
const LOOSE: [&str; 4] = [
    "CAAAAP8HAUEBQw4AAAB7ACIA6QAiADoAMQB9AP8GAVT/BQIwZv8E+f////8DAChr7v8CAwL/AQYAAADpAD3YAN7/AQgAAAB0AHIAZQBlAA==",
    "CAAAAEIAAAACAAAAAAAAAAEAAAA2AAAAAAAAADIAAAABAAAAAQAAACwAAAADAAAAAQAAAAAAAAABAAAAJgAAAAEAAAAAAAAAIQAAAAAAAAAdAAAAAAAAAAUAAAAAAAAA",
    "AwAAAAAAAAAAAAAA//////////8CAAAAAAAAAAAAAAABAAAAAAAAAAMAAAAHAAAAAgAAAAEAAAAAAAAAAAAAAAAAAAAAAAAAAAAAgP////8HAAAAAAAAAA==",
    "//8HAUIBRAQAAAB7AH0A/w==",
];

/// The same rows as they are written.
const WRITTEN: [&str; 4] = [
    "CAAAAAAEAAAAdHJlZQEGAAAA6QA92ADeAgMCAwAoa+4E+f///wUCMGYGAVQHAUEBQw4AAAB7ACIA6QAiADoAMQB9AA==",
    "CAAAAAQAAAACAAAAAAAAAAEAAAANAAAAAAAAABgAAAABAAAAAQAAABsAAAADAAAAAQAAAAAAAAABAAAAIAAAAAEAAAAAAAAAJQAAAAAAAAApAAAAAAAAACwAAAAAAAAA",
    "AwAAAAAAAAAAAAAA//////////8AAAAAAAAAAAAAAAABAAAAAAAAAAMAAAAHAAAADQAAAAEAAAAAAAAAAAAAAAAAAAAAAAAAAAAAgP////8HAAAAAAAAAA==",
    "BwFCAUQEAAAAewB9AAcBQgFEBAAAAHsAfQA=",
];

fn tables_of(alloc: Global, texts: [&str; 4], internals: u32) -> Result<Tables, NoMemory> {
    Ok(Tables {
        key: Text::copy_of(alloc, texts[0])?,
        bucket: Text::copy_of(alloc, texts[1])?,
        entry: Text::copy_of(alloc, texts[2])?,
        extra: Text::copy_of(alloc, texts[3])?,
        internals,
        providers: 1,
        kinds: 1,
    })
}

fn are_short(tables: &Tables) -> bool
    ensures key { IsTrue result → length tables.now.key < 1000 }
    ensures bucket { IsTrue result → length tables.now.bucket < 1000 }
    ensures entry { IsTrue result → length tables.now.entry < 1000 }
    ensures extra { IsTrue result → length tables.now.extra < 1000 }
{
    let keys = tables.key.len() < 1000 && tables.bucket.len() < 1000;
    keys && tables.entry.len() < 1000 && tables.extra.len() < 1000
}

fn decoded(alloc: Global, texts: [&str; 4], internals: u32) -> Result<Rows, TableErr> {
    let tables = tables_of(alloc, texts, internals)?;
    decode(alloc, &tables)
}

fn fault(alloc: Global, texts: [&str; 3], internals: u32) -> Option<TableErr> {
    decoded(alloc, [texts[0], texts[1], texts[2], ""], internals).err()
}

/// Whether decoding and encoding these tables gives those. The texts are short, so that the new ones are too.
fn are_rewritten(alloc: Global, from: [&str; 4], to: [&str; 4]) -> Result<bool, TableErr> {
    let tables = tables_of(alloc, from, 2)?;
    if !are_short(&tables) {
        return Ok(false);
    }
    let rows = decode(alloc, &tables)?;
    let new = encode(
        alloc,
        &rows,
        tables.internals,
        tables.providers,
        tables.kinds,
    )?;
    let keys = new.key.as_str() == to[0] && new.bucket.as_str() == to[1];
    Ok(keys && new.entry.as_str() == to[2] && new.extra.as_str() == to[3])
}

#[test]
fn tables_are_rewritten(rt: HostRuntime) {
    let tree = [KEY, BUCKET, ENTRY, ""];
    let accented = ["AQAAAAECAAAA6QA=", BUCKET, ENTRY, ""];
    for (from, to) in [
        (tree, tree),
        (accented, accented),
        (LOOSE, WRITTEN),
        (WRITTEN, WRITTEN),
    ] {
        assert!(rt; are_rewritten(rt.alloc(), from, to).is_ok_and(|same| same));
    }
}

#[test]
fn each_row_is_decoded(rt: HostRuntime) -> Result<(), Fail> {
    let Ok(rows) = decoded(rt.alloc(), LOOSE, 2) else {
        return Err("the tables are read".into());
    };
    let Some(Key::I32(-7)) = rows.keys.get(4) else {
        return Err("the fifth key is a number below zero".into());
    };
    let places = rows.buckets.get(3);
    assert!(rt; places.is_some_and(|places| places.as_slice() == [1, 0, 1].as_slice()));
    let [first, second, third] = rows.entries.as_slice() else {
        return Err("there are three entries".into());
    };
    assert!(rt; first.dep.is_none() && second.dep == Some(3) && third.dep_hash == i32::MIN);
    assert!(rt; matches!(&second.extra, Some(Key::Json { text, .. }) if text.as_str() == "{}"));
    Ok(())
}

fn all_fail(alloc: Global, cases: &[[&str; 3]], want: TableErr) -> bool {
    cases
        .iter()
        .all(|texts| fault(alloc, *texts, 1) == Some(want))
}

#[test]
fn texts_that_are_no_tables(rt: HostRuntime) {
    let alloc = rt.alloc();
    // No base64, and base64 without its padding.
    let texts = [[KEY, "*", ENTRY], [KEY, "AQAAAAQAAAABAAAAAAAAAA", ENTRY]];
    assert!(rt; all_fail(alloc, &texts, TableErr::Base64 { which: 1 }));
    // Three bytes; the counts -1 and 2^31 - 1, for which no room is taken.
    let texts = [
        ["AQAA", BUCKET, ENTRY],
        ["/////wAEAAAAdHJlZQ==", BUCKET, ENTRY],
    ];
    assert!(rt; all_fail(alloc, &texts, TableErr::Short { which: 0 }));
    let texts = [
        [KEY, "/////wQAAAABAAAAAAAAAA==", ENTRY],
        [KEY, "////fwQAAAABAAAAAAAAAA==", ENTRY],
        [KEY, "AQAAAAQAAAD///9/AAAAAA==", ENTRY],
    ];
    assert!(rt; all_fail(alloc, &texts, TableErr::Short { which: 1 }));
    let texts = [[KEY, BUCKET, "/////w=="], [KEY, BUCKET, "////fw=="]];
    assert!(rt; all_fail(alloc, &texts, TableErr::Short { which: 2 }));
    // A byte, and a number, after the last row.
    let texts = [
        [KEY, "AQAAAAQAAAABAAAAAAAAAAA=", ENTRY],
        [KEY, "AQAAAAQAAAABAAAAAAAAAAAAAAA=", ENTRY],
    ];
    assert!(rt; all_fail(alloc, &texts, TableErr::Trailing { which: 1 }));
    let more = "AQAAAAAAAAAAAAAA/////wAAAAD/////AAAAAAAAAAAAAA==";
    assert!(rt;
        all_fail(
            alloc,
            &[[KEY, BUCKET, more]],
            TableErr::Trailing { which: 2 }
        )
    );
    let counts = TableErr::Counts {
        keys: 1,
        buckets: 0,
    };
    assert!(rt; all_fail(alloc, &[[KEY, "AAAAAA==", ENTRY]], counts));
}

#[test]
fn tables_that_stand_for_no_rows(rt: HostRuntime) {
    let alloc = rt.alloc();
    // No key, and the offset -1.
    let texts = [
        ["AQAAAA==", BUCKET, ENTRY],
        [KEY, "AQAAAP////8BAAAAAAAAAA==", ENTRY],
    ];
    assert!(rt; all_fail(alloc, &texts, TableErr::Key { bucket: 0 }));
    // `tree` in ASCII, and again in UTF-16.
    let twice = "AgAAAAAEAAAAdHJlZQEIAAAAdAByAGUAZQA=";
    let places = "AgAAAAQAAAABAAAAAAAAAA0AAAABAAAAAAAAAA==";
    assert!(rt;
        all_fail(
            alloc,
            &[[twice, places, ENTRY]],
            TableErr::Key { bucket: 1 }
        )
    );
    let none = "AAAAAA==";
    assert!(rt; all_fail(alloc, &[[KEY, BUCKET, none]], TableErr::Place { bucket: 0 }));
    // The dependencies -2 and 1.
    let texts = [
        [KEY, BUCKET, "AQAAAAAAAAAAAAAA/v///wAAAAD/////AAAAAAAAAAA="],
        [KEY, BUCKET, "AQAAAAAAAAAAAAAAAQAAAAAAAAD/////AAAAAAAAAAA="],
    ];
    assert!(rt; all_fail(alloc, &texts, TableErr::Index { entry: 0, field: 2 }));
    // The extra offsets -2 and 0.
    let below = "AQAAAAAAAAAAAAAA/////wAAAAD+////AAAAAAAAAAA=";
    assert!(rt;
        all_fail(
            alloc,
            &[[KEY, BUCKET, below]],
            TableErr::Index { entry: 0, field: 4 }
        )
    );
    let past = "AQAAAAAAAAAAAAAA/////wAAAAAAAAAAAAAAAAAAAAA=";
    assert!(rt; all_fail(alloc, &[[KEY, BUCKET, past]], TableErr::Extra { entry: 0 }));
    // No internal id.
    let first = TableErr::Index { entry: 0, field: 0 };
    assert!(rt; fault(alloc, [KEY, BUCKET, ENTRY], 0) == Some(first));
}
