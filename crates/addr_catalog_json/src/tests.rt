// The texts of a bundle's options and of a small document, written out by hand from docs/formats/catalogue.md: proofs say that
// what is written is the text of the definitions, and these that it is the format's, with the members in byte order of their
// names; that each call succeeds with ample memory; and a row for each fault.
use super::*;
use addr_base::{Digest, Items, NoMemory, Text};
use std::alloc::Global;
use std::test::*;

const OPTIONS: &str =
    r#"{"m_BundleName":"a","m_BundleSize":4294967296,"m_Crc":0,"m_Hash":"000102030405060708090a0b0c0d0eff"}"#;

/// The texts of the document stand for no tables: what they say is another crate's.
const DOCUMENT: &str =
    r#"{"m_BucketDataString":"b","m_ContentState":"000102030405060708090a0b0c0d0eff","m_EntryDataString":"e","m_ExtraDataString":"x","m_InstanceProviderData":{},"m_InternalIdPrefixes":["p"],"m_InternalIds":["i","j"],"m_KeyDataString":"k","m_LocatorId":"AddressablesMainContentCatalog","m_ProviderIds":[],"m_ResourceProviderData":[],"m_SceneProviderData":{},"m_resourceTypes":[{"m_AssemblyName":"","m_ClassName":"Mesh"}]}"#;

const DIGEST: Digest = Digest([0, 1, 2, 3, 4, 5, 6, 7, 8, 9, 10, 11, 12, 13, 14, 255]);

fn options(alloc: Global) -> Result<BundleOptions, NoMemory> {
    Ok(BundleOptions {
        digest: DIGEST,
        name: Text::copy_of(alloc, "a")?,
        size: 4294967296,
    })
}

fn are_the_options(options: &BundleOptions) -> bool {
    options.digest == DIGEST && options.name.as_str() == "a" && options.size == 4294967296
}

/// The texts written for the options, and the options that the text above is.
fn both_options(alloc: Global) -> Result<(Text, Option<BundleOptions>), NoMemory> {
    let text = write_options(alloc, &options(alloc)?)?;
    let read = read_options(alloc, OPTIONS)?;
    Ok((text, read))
}

#[test]
fn options_are_written_and_read(rt: HostRuntime) -> Result<(), Fail> {
    let (text, read) = both_options(rt.alloc()).ok().ok_or("memory")?;
    assert!(rt; text.as_str() == OPTIONS);
    assert!(rt; read.is_some_and(|options| are_the_options(&options)));
    Ok(())
}

fn texts(alloc: Global, texts: &[&str]) -> Result<Items<Text>, NoMemory> {
    let mut copies = Items::new(alloc);
    for text in texts {
        copies.push(Text::copy_of(alloc, text)?)?;
    }
    Ok(copies)
}

fn document(alloc: Global) -> Result<Document, NoMemory> {
    Ok(Document {
        lists: Lists {
            providers: Items::new(alloc),
            internals: texts(alloc, &["i", "j"])?,
            kinds: texts(alloc, &["Mesh"])?,
            prefixes: texts(alloc, &["p"])?,
        },
        strings: Strings {
            key: Text::copy_of(alloc, "k")?,
            bucket: Text::copy_of(alloc, "b")?,
            entry: Text::copy_of(alloc, "e")?,
            extra: Text::copy_of(alloc, "x")?,
        },
        state: Some(DIGEST),
    })
}

fn are_texts(texts: &[Text], wanted: &[&str]) -> bool {
    texts.len() == wanted.len() && texts.iter().zip(wanted).all(|(a, b)| a.as_str() == *b)
}

fn is_the_document(d: &Document) -> bool {
    let texts = are_texts(d.lists.internals.as_slice(), &["i", "j"])
        && are_texts(d.lists.kinds.as_slice(), &["Mesh"])
        && are_texts(d.lists.prefixes.as_slice(), &["p"]);
    let tables = d.strings.key.as_str() == "k" && d.strings.extra.as_str() == "x";
    texts && tables && d.lists.providers.is_empty() && d.state == Some(DIGEST)
}

fn written(alloc: Global) -> Result<Vec<u8>, NoMemory> {
    write_document(alloc, &document(alloc)?)
}

#[test]
fn a_document_is_written_and_read(rt: HostRuntime) -> Result<(), Fail> {
    let bytes = written(rt.alloc()).ok().ok_or("memory")?;
    assert!(rt; bytes.as_slice() == DOCUMENT.as_bytes());
    let read = read_document(rt.alloc(), DOCUMENT.as_bytes()).ok();
    assert!(rt; read.is_some_and(|document| is_the_document(&document)));
    Ok(())
}

fn fault_of(alloc: Global, text: &str) -> Option<DocErr> {
    read_document(alloc, text.as_bytes()).err()
}

/// In each row a piece of the document's text is another; the member of that number is then faulty, and no want of memory
/// is told in its place.
#[test]
fn each_member_has_its_fault(rt: HostRuntime) -> Result<(), Fail> {
    assert!(rt; fault_of(rt.alloc(), "{") == Some(DocErr::Json));
    assert!(rt; fault_of(rt.alloc(), "[]") == Some(DocErr::Member { which: 0 }));
    for (piece, other, which) in [
        ("\"m_ProviderIds\":[]", "\"m_ProviderIds\":null", 1),
        ("[\"i\",\"j\"]", "[\"i\",1]", 2),
        ("\"m_KeyDataString\"", "\"m_KeyDataStrings\"", 3),
        ("\"b\"", "1", 4),
        ("\"e\"", "[]", 5),
        ("\"x\"", "{}", 6),
        ("\"Mesh\"", "1", 7),
        ("[\"p\"]", "\"p\"", 8),
        ("0d0eff", "0d0efF", 9),
        ("0d0eff", "0d0e", 9),
    ] {
        let text = DOCUMENT.replace(rt.alloc(), piece, other)?;
        assert!(rt;
            fault_of(rt.alloc(), text.as_str()) == Some(DocErr::Member { which }),
            "{other}"
        );
    }
    Ok(())
}

/// Options that lack a member, or have one outside its values, are none, and no want of memory.
#[test]
fn faulty_options_are_none(rt: HostRuntime) -> Result<(), Fail> {
    for (piece, other) in [
        ("\"m_Hash\"", "\"m_hash\""),
        ("0d0eff", "0d0efg"),
        ("\"a\"", "1"),
        ("4294967296", "1.0"),
        ("{", "["),
    ] {
        let text = OPTIONS.replace(rt.alloc(), piece, other)?;
        let read = read_options(rt.alloc(), text.as_str())
            .ok()
            .ok_or("memory")?;
        assert!(rt; read.is_none(), "{other}");
    }
    Ok(())
}
