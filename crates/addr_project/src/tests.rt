// What no clause says: the tests of a folder in their order, each on a folder that passes the earlier ones and breaks later
// ones too, as programs print them; a folder that is read; sizes.
use crate::Project;
use addr_base::{Items, MemDepot, MemFile, NoMemory, Text};
use std::alloc::Global;
use std::test::Fail;

const ASSET: &str =
    "[[asset]]\nguid = '00000000000000000000000000000001'\ntype = 'T'\nfile = 'a'\n";

const LOST: &str =
    "[[asset]]\nguid = '00000000000000000000000000000002'\ntype = 'T'\nfile = 'b'\nrefs = ['00000000000000000000000000000001']\n";

const DANGLING: &str =
    "[[asset]]\nguid = '00000000000000000000000000000003'\ntype = 'T'\nfile = 'b'\nrefs = ['00000000000000000000000000000009']\n";

const FIVE: &str = "[[asset]]\nguid = '00000000000000000000000000000001'\ntype = 'T'\nfile = 'a'\n\
    [[asset]]\nguid = '00000000000000000000000000000002'\ntype = 'T'\nfile = 'a'\n\
    [[asset]]\nguid = '00000000000000000000000000000003'\ntype = 'T'\nfile = 'a'\n\
    [[asset]]\nguid = '00000000000000000000000000000004'\ntype = 'T'\nfile = 'a'\n\
    [[asset]]\nguid = '00000000000000000000000000000005'\ntype = 'T'\nfile = 'a'\n";

const GROUP: &str = "[[group]]\nname = 'Core'\n";

const RESERVED: &str = "[[group]]\nname = 'Content Update'\n";

const ENTRY: &str =
    "[[entry]]\nguid = '00000000000000000000000000000001'\ngroup = 'Core'\naddress = 'x'\nlabels = ['b', 'a', 'b']\n";

const STRAY: &str =
    "[[entry]]\nguid = '00000000000000000000000000000005'\ngroup = 'None'\naddress = 'x'\n";

const NOWHERE: &str =
    "[[entry]]\nguid = '00000000000000000000000000000005'\ngroup = 'Core'\naddress = 'x'\n";

const LABELS: &str =
    "[[entry]]\nguid = '00000000000000000000000000000001'\ngroup = 'Core'\naddress = 'x'\nlabels = ['0', '1', '2', '3', '4', '5', '6', '7', '8', '9', '10', '11', '12', '13', '14', '15', '16', '17', '18', '19', '20', '21', '22', '23', '24', '25', '26', '27', '28', '29', '30', '31', '32', '32']\n";

const ROUND: &str = "[[variable]]\nname = 'A'\nvalue = '[A]'\n";

const LONG: &str =
    "[profile]\nlocal = '[C][C][C][C][C]'\n[[variable]]\nname = 'B'\nvalue = '0123456789ABCDEF'\n[[variable]]\nname = 'C'\nvalue = '[B][B][B][B][B][B][B][B][B][B][B][B][B][B][B][B]'\n";

const HOST: &str =
    "[profile]\nremote = '[Host]/remote'\n[[variable]]\nname = 'Host'\nvalue = 'http://127.0.0.1:8080'\n";

// A depot with a project file and one asset's file.
fn depot_of(
    alloc: Global,
    parts: &[&str],
    asset: Vec<u8>,
    fail: u32,
) -> Result<MemDepot, NoMemory> {
    let mut text = String::new(alloc);
    for part in parts {
        text.push_str(part)?;
    }
    let mut files = Vec::new(alloc);
    files.push(MemFile {
        name: Text::copy_of(alloc, "F/project.toml")?,
        bytes: Items::copy_of(alloc, text.as_bytes())?,
    })?;
    files.push(MemFile {
        name: Text::copy_of(alloc, "F/a")?,
        bytes: Items::from_vec(asset),
    })?;
    Ok(MemDepot::new(files, Vec::from_slice(alloc, &[fail])?))
}

// The fault of a folder as it is printed, or nothing where the folder is read.
fn line_of(alloc: Global, depot: &mut MemDepot, folder: &str) -> Result<String, Fail> {
    match Project::read(alloc, depot, folder) {
        Ok(_) => Ok(String::new(alloc)),
        Err(fault) => Ok(format!(in alloc; "{fault}")?),
    }
}

#[test]
fn first_broken_test_is_answered(rt: HostRuntime) -> Result<(), Fail> {
    let cases: [(&str, &[&str], u32, &str); 21] = [
        ("F", &[], 0, ""),
        ("G", &["="], 0, "1 - 0"),
        ("F", &["="], 0, "2 - 0"),
        ("F", &[ASSET], 1, "13 - 0"),
        ("F", &[ASSET, LOST], 2, "13 - 0"),
        (
            "F",
            &["group = 3\n[profile]\nlocal = ''\n"],
            0,
            "3 project 0",
        ),
        (
            "F",
            &["[profile]\nlocal = ''\n", ROUND, ROUND],
            0,
            "3 profile 0",
        ),
        ("F", &[ROUND, ROUND, LABELS], 0, "3 variable 1"),
        ("F", &[LABELS, LABELS], 0, "11 labels 33"),
        ("F", &[ASSET, ASSET, ENTRY, ENTRY], 0, "4 asset 1"),
        ("F", &[ASSET, ENTRY, ENTRY, GROUP, GROUP], 0, "4 entry 1"),
        ("F", &[GROUP, GROUP, RESERVED], 0, "5 group 1"),
        ("F", &[GROUP, RESERVED, STRAY], 0, "12 group 1"),
        ("F", &[GROUP, ASSET, ENTRY, STRAY, DANGLING], 0, "6 entry 1"),
        (
            "F",
            &[GROUP, NOWHERE, ASSET, DANGLING, ROUND],
            0,
            "7 asset 1",
        ),
        ("F", &[GROUP, NOWHERE, ASSET, ROUND], 0, "7 entry 0"),
        (
            "F",
            &["[profile]\nremote = '[B]'\n", ROUND],
            0,
            "9 profile 0",
        ),
        (
            "F",
            &[LONG, "[[variable]]\nname = 'D'\nvalue = '[A'\n", ROUND],
            0,
            "9 variable 2",
        ),
        ("F", &[LONG, ROUND, ASSET, LOST], 0, "10 variable 2"),
        ("F", &[LONG, ASSET, LOST], 0, "11 expanded 1280"),
        ("F", &[ASSET, LOST], 0, "8 asset 1"),
    ];
    for (folder, parts, fail, want) in cases {
        let asset = Vec::from_slice(rt.alloc(), b"A")?;
        let mut depot = depot_of(rt.alloc(), parts, asset, fail)?;
        let line = line_of(rt.alloc(), &mut depot, folder)?;
        assert_eq!(rt; line.as_str(), want);
    }
    Ok(())
}

// Each asset has the same file, so that the sum of sizes is reached with little memory.
#[test]
fn sizes_of_files_are_limited(rt: HostRuntime) -> Result<(), Fail> {
    let cases: [(&[&str], usize, &str); 4] = [
        (&[ASSET, LOST], 67_108_865, "8 asset 1"),
        (&[FIVE], 67_108_865, "11 asset-bytes 67108865"),
        (&[FIVE], 53_687_092, "11 all-bytes 268435460"),
        (&[FIVE], 53_687_091, ""),
    ];
    for (parts, length, want) in cases {
        let asset = vec![in rt.alloc(); 0; length]?;
        let mut depot = depot_of(rt.alloc(), parts, asset, 0)?;
        let line = line_of(rt.alloc(), &mut depot, "F")?;
        assert_eq!(rt; line.as_str(), want);
    }
    Ok(())
}

// The project of a good folder.
fn good(rt: &HostRuntime) -> Result<Project, Fail> {
    let asset = Vec::from_slice(rt.alloc(), b"A")?;
    let mut depot = depot_of(rt.alloc(), &[HOST, GROUP, ASSET, ENTRY], asset, 0)?;
    match Project::read(rt.alloc(), &mut depot, "F") {
        Ok(project) => Ok(project),
        Err(_) => Err("the folder is read".into()),
    }
}

#[test]
fn texts_of_a_good_folder(rt: HostRuntime) -> Result<(), Fail> {
    let project = good(&rt)?;
    assert_eq!(rt; project.version(), "2021.3.0f1");
    assert_eq!(rt; project.local(), "local");
    assert_eq!(rt; project.remote(), "http://127.0.0.1:8080/remote");
    match project.expand(rt.alloc(), "<[Host]>") {
        Ok(text) => assert_eq!(rt; text.as_str(), "<http://127.0.0.1:8080>"),
        Err(_) => assert!(rt; false),
    }
    Ok(())
}

#[test]
fn rows_of_a_good_folder(rt: HostRuntime) -> Result<(), Fail> {
    let project = good(&rt)?;
    assert_eq!(rt; (project.variables().len(), project.groups().len()), (1, 1));
    for asset in project.assets() {
        assert!(rt; asset.bytes.as_slice() == b"A".as_slice());
    }
    for entry in project.entries() {
        assert_eq!(rt; (entry.asset, entry.group, entry.labels.len()), (0, 0, 2));
    }
    Ok(())
}
