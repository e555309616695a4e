// What no clause says: the lines as they are printed, and that the command succeeds where memory is ample.
use crate::run_analyze;
use addr_base::{Depot, MemDepot, MemSink, Text};
use std::alloc::Global;
use std::test::Fail;

fn words(alloc: Global, line: &[&str]) -> Result<Vec<Text>, Fail> {
    let mut words = Vec::new(alloc);
    for word in line {
        words.push(Text::copy_of(alloc, word)?)?;
    }
    Ok(words)
}

/// A folder `F` with a project of two entries that both refer to a third asset, a folder `S` with one entry and the asset that it
/// refers to, and a folder `E` without a project, in a depot whose calls with these numbers fail.
fn folder(alloc: Global, fails: &[u32]) -> Result<MemDepot, Fail> {
    let mut depot = MemDepot::new(Vec::new(alloc), Vec::from_slice(alloc, fails)?);
    let twice = "[[group]]\nname = 'a'\nmode = 'separate'\n\
        [[asset]]\nguid = '00000000000000000000000000000001'\ntype = 'T'\nfile = 'a'\nrefs = ['00000000000000000000000000000003']\n\
        [[asset]]\nguid = '00000000000000000000000000000002'\ntype = 'T'\nfile = 'a'\nrefs = ['00000000000000000000000000000003']\n\
        [[asset]]\nguid = '00000000000000000000000000000003'\ntype = 'T'\nfile = 'a'\n\
        [[entry]]\nguid = '00000000000000000000000000000001'\ngroup = 'a'\naddress = 'a'\n\
        [[entry]]\nguid = '00000000000000000000000000000002'\ngroup = 'a'\naddress = 'b'\n";
    let once = "[[group]]\nname = 'a'\n\
        [[asset]]\nguid = '00000000000000000000000000000001'\ntype = 'T'\nfile = 'a'\nrefs = ['00000000000000000000000000000003']\n\
        [[asset]]\nguid = '00000000000000000000000000000003'\ntype = 'T'\nfile = 'a'\n\
        [[entry]]\nguid = '00000000000000000000000000000001'\ngroup = 'a'\naddress = 'a'\n";
    let _twice = depot.put(alloc, "F/project.toml", twice.as_bytes());
    let _asset = depot.put(alloc, "F/a", b"ABC");
    let _once = depot.put(alloc, "S/project.toml", once.as_bytes());
    let _asset = depot.put(alloc, "S/a", b"ABC");
    let _broken = depot.put(alloc, "E/project.toml", b"=");
    Ok(depot)
}

#[test]
fn prints_the_text_of_each_end(rt: HostRuntime) -> Result<(), Fail> {
    for (line, fails, status, want) in [
        (
            ["analyze", "F"],
            99u32,
            0u8,
            "duplicate 00000000000000000000000000000003 2 3\nanalyze 1 3\n",
        ),
        (["analyze", "S"], 99, 0, "analyze 0 0\n"),
        (["analyze", "E"], 99, 4, "error 4 2 - 0\n"),
        (["analyze", "F"], 6, 3, "error 3 depot\n"),
        (["plan", "F"], 99, 2, "error 2 usage\n"),
    ] {
        let mut depot = folder(rt.alloc(), &[fails])?;
        let mut out = MemSink::new(rt.alloc(), Vec::new(rt.alloc()));
        let words = words(rt.alloc(), &line)?;
        assert_eq!(rt;
            run_analyze(rt.alloc(), words.as_slice(), &mut depot, &mut out),
            status
        );
        assert_eq!(rt; out.written(), want.as_bytes());
    }
    Ok(())
}
