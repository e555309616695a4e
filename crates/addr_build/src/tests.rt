// A game's project in memory: what a build puts, how the next one goes on after a stop, and whose name is taken.
use crate::{BuildErr, Summary, build};
use addr_base::{Depot, MemDepot, NoMemory};
use addr_catalog::read_catalog;
use addr_project::ProjectErr;
use std::alloc::Global;
use std::test::Fail;

/// Three groups: one packed together, one entry by entry, one by label: five bundles and seven entries. One file serves all
/// twelve assets.
const GAME: &str = "\
[profile]\nlocal = 'local'\nremote = 'http://127.0.0.1:8080/remote'\n\
[[group]]\nname = 'Core'\nfixed = true\n\
[[group]]\nname = 'Levels'\nmode = 'separate'\nremote = true\n\
[[group]]\nname = 'Skins'\nmode = 'label'\nremote = true\n\
[[asset]]\nguid = '00000000000000000000000000000001'\ntype = 'T'\nfile = 'a'\nrefs = ['00000000000000000000000000000007', '00000000000000000000000000000002']\n\
[[asset]]\nguid = '00000000000000000000000000000002'\ntype = 'T'\nfile = 'a'\nrefs = ['00000000000000000000000000000008']\n\
[[asset]]\nguid = '00000000000000000000000000000003'\ntype = 'T'\nfile = 'a'\nrefs = ['00000000000000000000000000000001', '00000000000000000000000000000009']\n\
[[asset]]\nguid = '00000000000000000000000000000004'\ntype = 'T'\nfile = 'a'\nrefs = ['00000000000000000000000000000009', '00000000000000000000000000000005']\n\
[[asset]]\nguid = '00000000000000000000000000000005'\ntype = 'T'\nfile = 'a'\nrefs = ['0000000000000000000000000000000a']\n\
[[asset]]\nguid = '00000000000000000000000000000006'\ntype = 'T'\nfile = 'a'\nrefs = ['0000000000000000000000000000000a']\n\
[[asset]]\nguid = '00000000000000000000000000000007'\ntype = 'T'\nfile = 'a'\nrefs = ['0000000000000000000000000000000b']\n\
[[asset]]\nguid = '00000000000000000000000000000008'\ntype = 'T'\nfile = 'a'\n\
[[asset]]\nguid = '00000000000000000000000000000009'\ntype = 'T'\nfile = 'a'\nrefs = ['0000000000000000000000000000000b']\n\
[[asset]]\nguid = '0000000000000000000000000000000a'\ntype = 'T'\nfile = 'a'\n\
[[asset]]\nguid = '0000000000000000000000000000000b'\ntype = 'T'\nfile = 'a'\n\
[[asset]]\nguid = '0000000000000000000000000000000c'\ntype = 'T'\nfile = 'a'\n\
[[entry]]\nguid = '00000000000000000000000000000001'\ngroup = 'Core'\naddress = 'hero'\nlabels = ['start']\n\
[[entry]]\nguid = '00000000000000000000000000000002'\ngroup = 'Core'\naddress = 'ui'\n\
[[entry]]\nguid = '00000000000000000000000000000003'\ngroup = 'Levels'\naddress = 'level1'\nlabels = ['start']\n\
[[entry]]\nguid = '00000000000000000000000000000004'\ngroup = 'Levels'\naddress = 'level2'\n\
[[entry]]\nguid = '00000000000000000000000000000005'\ngroup = 'Skins'\naddress = 'skin_red'\nlabels = ['red']\n\
[[entry]]\nguid = '00000000000000000000000000000006'\ngroup = 'Skins'\naddress = 'skin_blue'\nlabels = ['red', 'blue']\n\
[[entry]]\nguid = '0000000000000000000000000000000c'\ngroup = 'Skins'\naddress = 'skin_old'\nlabels = ['red']\n";

const CATALOGUE: &str = "F/remote/catalog_main.json";

/// The calls of the third put, of the catalogue's and of the hash's, counted from the two that lay the project down: 13
/// reads of the project, then three calls for each bundle and two for each of state, catalogue and hash.
const THIRD: u32 = 24;

const LISTING: u32 = 34;

const HASH: u32 = 36;

fn folder(alloc: Global, project: &str) -> Result<MemDepot, NoMemory> {
    let mut depot = MemDepot::new(Vec::new(alloc), Vec::new(alloc));
    if depot
        .put(alloc, "F/project.toml", project.as_bytes())
        .is_err()
        || depot.put(alloc, "F/a", b"A").is_err()
    {
        return Err(NoMemory);
    }
    Ok(depot)
}

fn has_built(answer: Result<Summary, BuildErr>, put: u32) -> bool {
    match answer {
        Ok(summary) => summary
            == Summary {
                moved: 0,
                bundles: 5,
                put,
                rows: 7,
            },
        Err(_) => false,
    }
}

fn is_fault(answer: Result<Summary, BuildErr>) -> bool {
    match answer {
        Err(BuildErr::DepotFault) => true,
        _ => false,
    }
}

#[test]
fn puts_no_file_twice(rt: HostRuntime) -> Result<(), Fail> {
    let mut depot = folder(rt.alloc(), GAME)?;
    assert!(rt; has_built(build(rt.alloc(), &mut depot, "F"), 5));
    assert!(rt; has_built(build(rt.alloc(), &mut depot, "F"), 0));
    Ok(())
}

/// Which call fails, whether its put took effect, whether the catalogue is there then, and how many bundles the next build
/// puts.
#[test]
fn goes_on_after_a_stop(rt: HostRuntime) -> Result<(), Fail> {
    for (call, effect, listed, left) in [
        (THIRD, false, false, 3),
        (THIRD, true, false, 2),
        (LISTING, false, false, 0),
        (LISTING, true, true, 0),
        (HASH, false, true, 0),
    ] {
        let mut depot = folder(rt.alloc(), GAME)?;
        depot.fail_at(call, effect)?;
        assert!(rt; is_fault(build(rt.alloc(), &mut depot, "F")));
        assert_eq!(rt; depot.file(CATALOGUE).is_some(), listed);
        assert!(rt; has_built(build(rt.alloc(), &mut depot, "F"), left));
    }
    Ok(())
}

/// The name of the first bundle's file below the folder, as the catalogue tells it.
fn first_file(alloc: Global, depot: &MemDepot) -> Result<String, NoMemory> {
    let bytes = depot.file(CATALOGUE).unwrap_or(&[]);
    let Ok(catalogue) = read_catalog(alloc, bytes) else {
        return Err(NoMemory);
    };
    match catalogue.locator.bundles().first() {
        Some(row) => Ok(format!(in alloc; "local/{}", row.key.as_str())?),
        None => Err(NoMemory),
    }
}

#[test]
fn names_a_taken_file_and_puts_none(rt: HostRuntime) -> Result<(), Fail> {
    let mut built = folder(rt.alloc(), GAME)?;
    assert!(rt; has_built(build(rt.alloc(), &mut built, "F"), 5));
    let name = first_file(rt.alloc(), &built)?;
    let path = format!(in rt.alloc(); "F/{}", name.as_str())?;
    let mut depot = folder(rt.alloc(), GAME)?;
    assert!(rt; depot.put(rt.alloc(), path.as_str(), b"B").is_ok());
    match build(rt.alloc(), &mut depot, "F") {
        Err(BuildErr::NameTaken(taken)) => assert_eq!(rt; taken.as_str(), name.as_str()),
        _ => assert!(rt; false),
    }
    assert!(rt; depot.file(CATALOGUE).is_none());
    Ok(())
}

#[test]
fn builds_a_project_of_nothing(rt: HostRuntime) -> Result<(), Fail> {
    let mut depot = folder(rt.alloc(), "")?;
    match build(rt.alloc(), &mut depot, "F") {
        Ok(summary) => assert_eq!(rt; [summary.bundles, summary.put, summary.rows], [0, 0, 0]),
        Err(_) => assert!(rt; false),
    }
    match build(rt.alloc(), &mut depot, "G") {
        Err(BuildErr::Project(ProjectErr::NoProject)) => {}
        _ => assert!(rt; false),
    }
    Ok(())
}
