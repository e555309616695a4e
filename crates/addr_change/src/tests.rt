// What no clause says: the lines as they are printed, and that a build succeeds where memory is ample.
use crate::{run_build, run_check, run_resolve, run_update};
use addr_base::{Depot, MemDepot, MemSink, Text};
use std::alloc::Global;
use std::test::Fail;

fn words(alloc: Global, line: &[&str]) -> Result<Vec<Text>, Fail> {
    let mut words = Vec::new(alloc);
    for word in line {
        words.push(Text::copy_of(alloc, word)?)?;
    }
    Ok(words)
}

/// A folder `F` with a project of one asset, which is an entry, in a depot whose calls with these numbers fail.
fn folder(alloc: Global, fails: &[u32]) -> Result<MemDepot, Fail> {
    let mut depot = MemDepot::new(Vec::new(alloc), Vec::from_slice(alloc, fails)?);
    let project = "[[group]]\nname = 'a b'\n\
        [[asset]]\nguid = '00000000000000000000000000000001'\ntype = 'T'\nfile = 'a'\n\
        [[entry]]\nguid = '00000000000000000000000000000001'\ngroup = 'a b'\naddress = 'a'\n";
    let _project = depot.put(alloc, "F/project.toml", project.as_bytes());
    let _asset = depot.put(alloc, "F/a", b"A");
    let _broken = depot.put(alloc, "E/project.toml", b"=");
    let _bad = depot.put(alloc, "E/remote/catalog_main.json", b"=");
    let name = "n123456789".repeat(alloc, 19)?;
    let long = format!(in alloc;
        "[[group]]\nname = '{}'\n\
        [[asset]]\nguid = '00000000000000000000000000000001'\ntype = 'T'\nfile = 'a'\n\
        [[entry]]\nguid = '00000000000000000000000000000001'\ngroup = '{}'\naddress = 'a'\n",
        name.as_str(),
        name.as_str()
    )?;
    let _long = depot.put(alloc, "L/project.toml", long.as_bytes());
    let _file = depot.put(alloc, "L/a", b"A");
    Ok(depot)
}

#[test]
fn prints_one_line_of_each_end(rt: HostRuntime) -> Result<(), Fail> {
    for (line, fails, status, want) in [
        (["build", "F"], 99u32, 0u8, "built 1 1 1\n"),
        (["build", "E"], 99, 4, "error 4 2 - 0\n"),
        (["build", "N"], 99, 4, "error 4 1 - 0\n"),
        (["build", "F"], 8, 3, "error 3 depot\n"),
        (["build", "L"], 99, 11, "error 11 bundle-name 201\n"),
        (["plan", "F"], 99, 2, "error 2 usage\n"),
    ] {
        let mut depot = folder(rt.alloc(), &[fails])?;
        let mut out = MemSink::new(rt.alloc(), Vec::new(rt.alloc()));
        let words = words(rt.alloc(), &line)?;
        assert_eq!(rt;
            run_build(rt.alloc(), words.as_slice(), &mut depot, &mut out),
            status
        );
        assert_eq!(rt; out.written(), want.as_bytes());
    }
    Ok(())
}

#[test]
fn shows_what_was_built(rt: HostRuntime) -> Result<(), Fail> {
    let mut depot = folder(rt.alloc(), &[99])?;
    let mut log = MemSink::new(rt.alloc(), Vec::new(rt.alloc()));
    let build = words(rt.alloc(), &["build", "F"])?;
    let _built = run_build(rt.alloc(), build.as_slice(), &mut depot, &mut log);
    for (line, status, want) in [
        (
            ["resolve", "F", "a"],
            0u8,
            "asset 00000000000000000000000000000001 T\nitem 00000000000000000000000000000001 1 41 -\n",
        ),
        (["resolve", "F", "a b"], 12, "error 12 a%20b\n"),
        (
            ["resolve", "N", "a"],
            5,
            "error 5 N/remote/catalog_main.json\n",
        ),
        (["resolve", "E", "a"], 7, "error 7 1\n"),
    ] {
        let mut out = MemSink::new(rt.alloc(), Vec::new(rt.alloc()));
        let words = words(rt.alloc(), &line)?;
        assert_eq!(rt;
            run_resolve(rt.alloc(), words.as_slice(), &mut depot, &mut out),
            status
        );
        assert_eq!(rt; out.written(), want.as_bytes());
    }
    Ok(())
}

#[test]
fn a_failed_output_is_told_by_the_status(rt: HostRuntime) -> Result<(), Fail> {
    let mut depot = folder(rt.alloc(), &[99])?;
    let mut out = MemSink::new(rt.alloc(), Vec::from_slice(rt.alloc(), &[1])?);
    let words = words(rt.alloc(), &["build", "F"])?;
    assert_eq!(rt;
        run_build(rt.alloc(), words.as_slice(), &mut depot, &mut out),
        13
    );
    Ok(())
}

#[test]
fn patches_what_changed(rt: HostRuntime) -> Result<(), Fail> {
    let mut depot = folder(rt.alloc(), &[99])?;
    let project = "[[group]]\nname = 'Fix'\nfixed = true\n\
        [[asset]]\nguid = '00000000000000000000000000000001'\ntype = 'T'\nfile = 'a'\n\
        [[entry]]\nguid = '00000000000000000000000000000001'\ngroup = 'Fix'\naddress = 'a'\n";
    let _project = depot.put(rt.alloc(), "F/project.toml", project.as_bytes());
    let mut log = MemSink::new(rt.alloc(), Vec::new(rt.alloc()));
    let build = words(rt.alloc(), &["build", "F"])?;
    let _built = run_build(rt.alloc(), build.as_slice(), &mut depot, &mut log);
    let _changed = depot.put(rt.alloc(), "F/a", b"B");
    for (line, status, want) in [
        (["update", "F"], 0u8, "updated 1 2 1 1\n"),
        (
            ["check", "F"],
            0,
            "moved 00000000000000000000000000000001 before\ncheck 1\n",
        ),
        (["update", "E"], 4, "error 4 2 - 0\n"),
        (["build", "F"], 2, "error 2 usage\n"),
    ] {
        let mut out = MemSink::new(rt.alloc(), Vec::new(rt.alloc()));
        let words = words(rt.alloc(), &line)?;
        let found = if line[0] == "check" {
            run_check(rt.alloc(), words.as_slice(), &mut depot, &mut out)
        } else {
            run_update(rt.alloc(), words.as_slice(), &mut depot, &mut out)
        };
        assert_eq!(rt; found, status);
        assert_eq!(rt; out.written(), want.as_bytes());
    }
    Ok(())
}
