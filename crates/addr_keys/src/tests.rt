// Keys and faults on bytes that were worked out by hand, and that the calls succeed with ample memory.
use super::*;
use addr_base::Text;
use std::alloc::Global;
use std::test::*;

fn is_fault(alloc: Global, bytes: &[u8], want: KeyErr) -> bool {
    match read_key(alloc, bytes, 0) {
        Ok(_) => false,
        Err(fault) => fault == want,
    }
}

/// A row for each fault of each field: none is told as want of memory.
#[test]
fn each_field_has_its_faults(rt: HostRuntime) {
    for (bytes, want) in [
        ([].as_slice(), KeyErr::Short),
        ([9].as_slice(), KeyErr::Kind(9)),
        // a number, a length, a body and a short body that are cut off
        ([2, 1].as_slice(), KeyErr::Short),
        ([1, 2, 0, 0].as_slice(), KeyErr::Short),
        ([0, 2, 0, 0, 0, 0x41].as_slice(), KeyErr::Short),
        ([5, 1].as_slice(), KeyErr::Short),
        // lengths below zero
        ([0, 255, 255, 255, 255].as_slice(), KeyErr::Negative),
        ([1, 0, 0, 0, 0x80].as_slice(), KeyErr::Negative),
        // bytes above 0x7f in a text and in a type id
        ([0, 1, 0, 0, 0, 0x80].as_slice(), KeyErr::NotAscii),
        ([6, 1, 0xff].as_slice(), KeyErr::NotAscii),
        // UTF-16 of odd length, a high surrogate alone, a low one first; the last in an object of a class
        ([1, 3, 0, 0, 0, 0x41, 0, 0x42].as_slice(), KeyErr::Surrogate),
        ([1, 2, 0, 0, 0, 0, 0xd8].as_slice(), KeyErr::Surrogate),
        (
            [7, 0, 0, 4, 0, 0, 0, 0, 0xdc, 0, 0xd8].as_slice(),
            KeyErr::Surrogate,
        ),
    ] {
        assert!(rt; is_fault(rt.alloc(), bytes, want), "{want:?}");
    }
}

#[test]
fn a_text_has_its_form(rt: HostRuntime) -> Result<(), Fail> {
    // U+00E9 takes one unit, U+1F600 a pair of surrogates.
    let bytes = [7, 1, 6, 0, 0, 0, 0xe9, 0, 0x3d, 0xd8, 0, 0xde];
    let Ok((key, end)) = read_key(rt.alloc(), &bytes, 1) else {
        return Err("a text stands there".into());
    };
    assert_eq!(rt; end, 12);
    let Key::Text(text) = key else {
        return Err("it is a text".into());
    };
    assert_eq!(rt; text.as_str(), "é😀");
    Ok(())
}

#[test]
fn writing_appends(rt: HostRuntime) -> Result<(), Fail> {
    let mut bytes = Vec::new(rt.alloc());
    bytes.push(7)?;
    if write_key(&Key::I32(-2), &mut bytes).is_err() {
        return Err("memory is ample".into());
    }
    assert_eq!(rt; bytes.as_slice(), [7, 4, 254, 255, 255, 255].as_slice());
    Ok(())
}
