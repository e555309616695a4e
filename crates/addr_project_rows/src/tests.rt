// What no clause says: worked members and rows, and that each call can succeed.
use crate::{
    Indexed, fields, first_repeat, index_rows, labels_at, list_at, row_number, texts,
    variables_read,
};
use addr_base::Text;
use std::test::Fail;

const DOCUMENT: &str =
    "name = 'Core'\nfile = 'a/b.bin'\nstate = 'state_1/a'\nguid = '0000000000000000000000000000000a'\nupper = '0000000000000000000000000000000A'\nlabels = ['b', 'a', 'b']\n[[variable]]\nname = 'A'\nvalue = ''\n[[variable]]\nname = 'A'\nvalue = 'x'\n";

#[test]
fn members_of_a_document(rt: HostRuntime) -> Result<(), Fail> {
    let Ok(tree) = toml::table_from_str(rt.alloc(), DOCUMENT) else {
        return Err("the document is read".into());
    };
    assert_eq!(rt; fields::text_at(&tree, "name"), Some("Core"));
    assert_eq!(rt; fields::text_at(&tree, "none"), None);
    assert_eq!(rt; fields::bool_or(&tree, "fixed", true), Some(true));
    assert_eq!(rt; fields::bool_or(&tree, "name", true), None);
    assert_eq!(rt;
        fields::file_at(rt.alloc(), &tree, "file")?,
        Some("a/b.bin")
    );
    assert_eq!(rt; fields::file_at(rt.alloc(), &tree, "state")?, None);
    assert!(rt; fields::guid_at(&tree, "guid").is_some());
    assert!(rt; fields::guid_at(&tree, "upper").is_none());
    let Some(texts) = list_at::<Text>(rt.alloc(), &tree, "labels")? else {
        return Err("the list is read".into());
    };
    assert_eq!(rt; texts.len(), 3);
    let Some(labels) = labels_at(rt.alloc(), &tree, "labels")? else {
        return Err("the labels are read".into());
    };
    assert!(rt; matches!(labels.as_slice(), [a, b] if a.as_str() == "a" && b.as_str() == "b"));
    Ok(())
}

#[test]
fn rows_up_to_the_first_bad_one(rt: HostRuntime) -> Result<(), Fail> {
    let Ok(tree) = toml::table_from_str(rt.alloc(), DOCUMENT) else {
        return Err("the document is read".into());
    };
    let Some(rows) = fields::member(&tree, "variable") else {
        return Err("there are variables".into());
    };
    let Some(rows) = fields::as_rows(rows) else {
        return Err("they are rows".into());
    };
    let read = variables_read(rt.alloc(), rows)?;
    assert_eq!(rt; (read.found.len(), read.bad), (2, Some(1)));
    let variables = read.found.as_slice();
    assert_eq!(rt; first_repeat(rt.alloc(), variables)?, Some(1));
    assert!(rt; matches!(index_rows(rt.alloc(), variables)?, Indexed::Repeat(1)));
    assert_eq!(rt; row_number(variables.len())?, 2);
    assert!(rt; texts::is_file_name(rt.alloc(), "a/state_1")?);
    Ok(())
}
