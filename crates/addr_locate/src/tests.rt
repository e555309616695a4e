// What no clause says: the worked rows read and written, the places of bad lines, and that each call can succeed.
use crate::{Kind, Merge, RowsErr, of_rows, read_rows, write_rows};
use addr_base::{BundleNo, KeyNo, RowNo, Text, TypeNo, Var};
use std::alloc::Global;
use std::test::Fail;

const ROWS: &[u8] =
    b"addr-rows 1\nbundle A 100 00000000000000000000000000000000 A local/A\nbundle B 200 00000000000000000000000000000000 B local/B\nasset 00000000000000000000000000000001 Mesh 0 tree,00000000000000000000000000000001,green\nasset 00000000000000000000000000000002 Mesh 1,0 bush,00000000000000000000000000000002,green\nasset 00000000000000000000000000000003 Mesh 0 green,00000000000000000000000000000003\n";

#[test]
fn reads_the_worked_rows(rt: HostRuntime) {
    let Ok(locator) = read_rows(rt.alloc(), ROWS) else {
        assert!(rt; false);
        return;
    };
    assert_eq!(rt; locator.bundles().len(), 2);
    assert_eq!(rt; locator.assets().len(), 3);
    assert_eq!(rt; locator.key_no("bush"), Some(KeyNo(3)));
    assert_eq!(rt; locator.key_no("nope"), None);
    assert_eq!(rt; locator.type_no("Mesh"), Some(TypeNo(0)));
    assert_eq!(rt; locator.key_text(KeyNo(2)), Some("green"));
    assert_eq!(rt; locator.type_text(TypeNo(1)), None);
}

#[test]
fn finds_rows_and_bundles(rt: HostRuntime) -> Result<(), Fail> {
    let Ok(locator) = read_rows(rt.alloc(), ROWS) else {
        assert!(rt; false);
        return Ok(());
    };
    let keys = [locator.key_no("nope"), locator.key_no("green")];
    let rows = locator.locate(rt.alloc(), &keys, Merge::Union, Kind::Any)?;
    assert!(rt; rows.as_slice() == [RowNo(0), RowNo(1), RowNo(2)].as_slice());
    let rows = locator.locate(rt.alloc(), &keys, Merge::Intersection, Kind::Any)?;
    assert!(rt; rows.is_empty());
    let bundles = locator.deps(rt.alloc(), &[RowNo(1), RowNo(0)])?;
    assert!(rt; bundles.as_slice() == [BundleNo(1), BundleNo(0)].as_slice());
    Ok(())
}

fn bad_line(rt: &HostRuntime, bytes: &[u8]) -> Option<RowsErr> {
    if bytes.len() > 1000 {
        return None;
    }
    match read_rows(rt.alloc(), bytes) {
        Ok(_) => None,
        Err(e) => Some(e),
    }
}

#[test]
fn names_the_first_bad_line(rt: HostRuntime) {
    let files: [(&[u8], u32); 15] = [
        (b"", 1),
        (b"\n", 1),
        (b"addr-rows 1\r\n", 1),
        (b"addr-rows 1\n\n", 2),
        (
            b"addr-rows 1\nbundle A 0100 00000000000000000000000000000000 A a\n",
            2,
        ),
        (
            b"addr-rows 1\nbundle A 18446744073709551616 00000000000000000000000000000000 A a\n",
            2,
        ),
        (
            b"addr-rows 1\nbundle A 100 0000000000000000000000000000000A A a\n",
            2,
        ),
        (
            b"addr-rows 1\nbundle A 100 00000000000000000000000000000000 %FF a\n",
            2,
        ),
        (
            b"addr-rows 1\nbundle \xff 100 00000000000000000000000000000000 A a\n",
            2,
        ),
        (
            b"addr-rows 1\nbundle A 100 00000000000000000000000000000000",
            2,
        ),
        (
            b"addr-rows 1\nbundle A 100 00000000000000000000000000000000 A a\nasset a t 0 k,k\n",
            3,
        ),
        (
            b"addr-rows 1\nbundle A 100 00000000000000000000000000000000 A a\nasset a t 0,0 %-\n",
            3,
        ),
        (
            b"addr-rows 1\nbundle A 100 00000000000000000000000000000000 A a\nasset a t 1 %-\n",
            3,
        ),
        (
            b"addr-rows 1\nbundle A 100 00000000000000000000000000000000 A a\nasset a t  %-\n",
            3,
        ),
        (
            b"addr-rows 1\nbundle A 100 00000000000000000000000000000000 A a\nasset a t 0 %-\nbundle B 100 00000000000000000000000000000000 B b",
            4,
        ),
    ];
    for (bytes, line) in files {
        assert_eq!(rt; bad_line(&rt, bytes), Some(RowsErr::Line(line)));
    }
}

#[test]
fn numbers_no_rows(rt: HostRuntime) -> Result<(), Fail> {
    let locator = of_rows(rt.alloc(), Vec::new(rt.alloc()), Vec::new(rt.alloc()))?;
    assert_eq!(rt; locator.assets().len(), 0);
    Ok(())
}

#[test]
fn writes_the_worked_rows(rt: HostRuntime) -> Result<(), Fail> {
    let Ok(locator) = read_rows(rt.alloc(), ROWS) else {
        assert!(rt; false);
        return Ok(());
    };
    let text = write_rows(rt.alloc(), &locator)?;
    assert_eq!(rt;
        text.as_str(),
        "addr-rows 1\nbundle A 100 00000000000000000000000000000000 A local/A\nbundle B 200 00000000000000000000000000000000 B local/B\nasset 00000000000000000000000000000001 Mesh 0 tree,00000000000000000000000000000001,green\nasset 00000000000000000000000000000002 Mesh 1,0 bush,green,00000000000000000000000000000002\nasset 00000000000000000000000000000003 Mesh 0 green,00000000000000000000000000000003\n"
    );
    assert_eq!(rt; bad_line(&rt, text.as_bytes()), None);
    Ok(())
}

fn variable(alloc: Global, name: &str, value: &str) -> Result<Var, Fail> {
    Ok(Var {
        name: Text::copy_of(alloc, name)?,
        value: Text::copy_of(alloc, value)?,
    })
}

#[test]
fn evaluates_ids(rt: HostRuntime) -> Result<(), Fail> {
    let Ok(mut locator) = read_rows(
        rt.alloc(),
        b"addr-rows 1\nbundle {Host} 1 00000000000000000000000000000000 {Host} {Host}/{Port}/a\n",
    ) else {
        assert!(rt; false);
        return Ok(());
    };
    let vars = [
        variable(rt.alloc(), "Host", "h")?,
        variable(rt.alloc(), "Host", "k")?,
    ];
    locator.evaluate(rt.alloc(), &vars)?;
    for bundle in locator.bundles() {
        assert_eq!(rt; bundle.id.as_str(), "h/{Port}/a");
        assert_eq!(rt; bundle.key.as_str(), "{Host}");
    }
    Ok(())
}
