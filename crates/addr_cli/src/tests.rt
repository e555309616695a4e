// What no clause says: replies worked out by hand, the places of faults, and that each run can succeed.
ghost use Rattle.std.specs.Prelude.{◌<◌, ◌^◌, length};

use crate::runner::run;
use crate::status::Status;
use addr_base::{Digest, Items, MemDepot, MemFile, MemSink, Text};
use addr_catalog::{Catalogue, can_write, write_catalog};
use addr_locate::read_rows;
use std::alloc::Global;
use std::fmt::Write;
use std::test::Fail;

mod catalogued;
mod faulty;
mod inspected;
mod interleavings;
mod planned;
mod served;
mod worked;

const WORDS: &str = "simulate r s";

/// Which call of the depot and which of the sink is to fail, from 1 on; 0 for none.
#[derive(Clone, Copy)]
struct Faults {
    depot: u32,
    sink: u32,
}

const NO_FAULT: Faults = Faults { depot: 0, sink: 0 };

fn words_of(alloc: Global, line: &str) -> Result<Vec<Text>, Fail> {
    let mut words = Vec::new(alloc);
    for word in line.split_ascii_whitespace() {
        words.push(Text::copy_of(alloc, word)?)?;
    }
    Ok(words)
}

fn add_file(alloc: Global, files: &mut Vec<MemFile>, name: &str, bytes: &[u8]) -> Result<(), Fail> {
    files.push(MemFile {
        name: Text::copy_of(alloc, name)?,
        bytes: Items::copy_of(alloc, bytes)?,
    })?;
    Ok(())
}

fn one_file(alloc: Global, name: &str, bytes: &[u8]) -> Result<Vec<MemFile>, Fail> {
    let mut files = Vec::new(alloc);
    add_file(alloc, &mut files, name, bytes)?;
    Ok(files)
}

/// The rows as the file `r`, and the script as the file `s`.
fn both_files(alloc: Global, rows: &str, script: &str) -> Result<Vec<MemFile>, Fail> {
    let mut files = Vec::new(alloc);
    add_file(alloc, &mut files, "r", rows.as_bytes())?;
    add_file(alloc, &mut files, "s", script.as_bytes())?;
    Ok(files)
}

/// Whether a run over these files ends with this status and prints this text.
fn ends(
    alloc: Global,
    line: &str,
    files: Vec<MemFile>,
    faults: Faults,
    status: u8,
    text: &str,
) -> Result<bool, Fail> {
    let words = words_of(alloc, line)?;
    let mut depot = MemDepot::new(files, Vec::from_slice(alloc, &[faults.depot])?);
    let mut out = MemSink::new(alloc, Vec::from_slice(alloc, &[faults.sink])?);
    let ended = run(alloc, words.as_slice(), &mut depot, &mut out);
    Ok(ended == Status(status) && out.written() == text.as_bytes())
}

/// Adds a case's commands to a script, and the replies that stand behind them to a text.
fn spell_out(case: &str, script: &mut String, replies: &mut String) -> Result<(), Fail> {
    for part in case.split(';') {
        match part.split_once('=') {
            Some((command, reply)) => {
                add_command(script, command.trim())?;
                add_line(replies, reply.trim())?;
            }
            None => add_line(script, part.trim())?,
        }
    }
    Ok(())
}

fn add_command(script: &mut String, command: &str) -> Result<(), Fail> {
    match command.strip_prefix("load ") {
        Some(keys) => writeln!(script, "load 0 one first %* {keys}")?,
        None => writeln!(script, "{command}")?,
    }
    Ok(())
}

fn add_line(text: &mut String, line: &str) -> Result<(), Fail> {
    writeln!(text, "{line}")?;
    Ok(())
}

fn plays(alloc: Global, rows: &str, case: &str) -> Result<bool, Fail> {
    let mut script = String::new(alloc);
    let mut replies = String::new(alloc);
    spell_out(case, &mut script, &mut replies)?;
    let files = both_files(alloc, rows, script.as_str())?;
    ends(alloc, WORDS, files, NO_FAULT, 0, replies.as_str())
}

#[test]
fn plays_the_worked_rows(rt: HostRuntime) -> Result<(), Fail> {
    for case in worked::SCRIPTS {
        assert!(rt; plays(rt.alloc(), worked::ROWS, case)?, "{case}");
    }
    Ok(())
}

#[test]
fn plays_scripts_that_read(rt: HostRuntime) -> Result<(), Fail> {
    for (script, replies) in worked::READINGS {
        let files = both_files(rt.alloc(), worked::ROWS, script)?;
        assert!(rt;
            ends(rt.alloc(), WORDS, files, NO_FAULT, 0, replies)?,
            "{script}"
        );
    }
    let named = "load 0 one first %* a\ntake 1\ndone 1 0\nread 0 0\nreadall 0 0\n";
    let files = both_files(rt.alloc(), interleavings::ROWS, named)?;
    let replies = "op 0\nbundle 0\nkept\nabsent 0\nabsent 0\n";
    assert!(rt; ends(rt.alloc(), WORDS, files, NO_FAULT, 0, replies)?);
    Ok(())
}

#[test]
fn plays_each_interleaving(rt: HostRuntime) -> Result<(), Fail> {
    for case in interleavings::SCRIPTS {
        assert!(rt; plays(rt.alloc(), interleavings::ROWS, case)?, "{case}");
    }
    Ok(())
}

#[test]
fn refuses_words_of_no_command(rt: HostRuntime) -> Result<(), Fail> {
    for line in faulty::WORDS {
        let files = both_files(rt.alloc(), worked::ROWS, "")?;
        assert!(rt;
            ends(rt.alloc(), line, files, NO_FAULT, 2, "error 2 usage\n")?,
            "{line}"
        );
    }
    Ok(())
}

#[test]
fn names_the_first_bad_line(rt: HostRuntime) -> Result<(), Fail> {
    for (rows, line) in faulty::ROWS {
        let printed = format!(in rt.alloc(); "error 7 line {line}\n")?;
        let files = both_files(rt.alloc(), rows, "fly")?;
        assert!(rt;
            ends(rt.alloc(), WORDS, files, NO_FAULT, 7, printed.as_str())?,
            "{rows}"
        );
    }
    for (script, line) in faulty::SCRIPTS {
        let printed = format!(in rt.alloc(); "error 9 {line}\n")?;
        let files = both_files(rt.alloc(), worked::ROWS, script)?;
        assert!(rt;
            ends(rt.alloc(), WORDS, files, NO_FAULT, 9, printed.as_str())?,
            "{script}"
        );
    }
    Ok(())
}

#[test]
fn takes_scripts_without_a_last_line_end(rt: HostRuntime) -> Result<(), Fail> {
    for (script, replies) in faulty::SOUND_SCRIPTS {
        let files = both_files(rt.alloc(), worked::ROWS, script)?;
        assert!(rt;
            ends(rt.alloc(), WORDS, files, NO_FAULT, 0, replies)?,
            "{script}"
        );
    }
    Ok(())
}

#[test]
fn names_missing_files_rows_first(rt: HostRuntime) -> Result<(), Fail> {
    let none = Vec::new(rt.alloc());
    assert!(rt;
        ends(
            rt.alloc(),
            "simulate a% s",
            none,
            NO_FAULT,
            5,
            "error 5 a%25\n"
        )?
    );
    for (rows, status, printed) in [
        (worked::ROWS, 5, "error 5 s\n"),
        ("x", 7, "error 7 line 1\n"),
    ] {
        let files = one_file(rt.alloc(), "r", rows.as_bytes())?;
        assert!(rt;
            ends(rt.alloc(), WORDS, files, NO_FAULT, status, printed)?,
            "{printed}"
        );
    }
    Ok(())
}

#[test]
fn tells_faults_of_the_depot_and_the_sink(rt: HostRuntime) -> Result<(), Fail> {
    for (depot, sink, status, printed) in [
        (1, 0, 3, "error 3 depot\n"),
        (2, 0, 3, "error 3 depot\n"),
        (3, 0, 0, "count 0 absent\n"),
        (0, 1, 13, ""),
        (1, 1, 13, ""),
    ] {
        let files = both_files(rt.alloc(), worked::ROWS, "count 0\n")?;
        let faults = Faults { depot, sink };
        assert!(rt;
            ends(rt.alloc(), WORDS, files, faults, status, printed)?,
            "{depot} {sink}"
        );
    }
    Ok(())
}

#[test]
fn refuses_line_100001(rt: HostRuntime) -> Result<(), Fail> {
    let mut script = String::new(rt.alloc());
    for _ in 0..100_001 {
        script.push_str("close\n")?;
    }
    let files = both_files(rt.alloc(), worked::ROWS, script.as_str())?;
    assert!(rt; ends(rt.alloc(), WORDS, files, NO_FAULT, 9, "error 9 100001\n")?);
    Ok(())
}

/// One round of ten commands: the first operation of the round is released in it, the second one stays.
fn add_round(script: &mut String, replies: &mut String, round: u32) -> Result<(), Fail>
    requires { round < 1000 }
{
    let first = 2 * round;
    let second = first + 1;
    let open = round + 2;
    write!(
        script,
        "load 0 one first %* bush\nload 0 one first %* tree\ncount 0\ntake 1\ntake 2\n"
    )?;
    write!(
        script,
        "done 1 1\ndone 2 0\nstatus {first}\nrelease 0 {first}\ncount 1\n"
    )?;
    if round == 0 {
        write!(
            replies,
            "op 0\nop 1\ncount 2 queued\nbundle 1\nbundle 0\nkept\nkept\n"
        )?;
    } else {
        write!(
            replies,
            "op {first}\nop {second}\ncount {open} resident\nbundle 1\nidle\nkept\nnot-taken\n"
        )?;
    }
    write!(replies, "ready\nreleased\ncount 0 absent\n")?;
    Ok(())
}

#[test]
fn plays_300_mixed_commands(rt: HostRuntime) -> Result<(), Fail> {
    let mut script = String::new(rt.alloc());
    let mut replies = String::new(rt.alloc());
    for round in 0..30 {
        add_round(&mut script, &mut replies, round)?;
    }
    let files = both_files(rt.alloc(), worked::ROWS, script.as_str())?;
    assert!(rt; ends(rt.alloc(), WORDS, files, NO_FAULT, 0, replies.as_str())?);
    Ok(())
}

#[test]
fn inspects_bundle_files(rt: HostRuntime) -> Result<(), Fail> {
    let cases = [
        (inspected::OPAQUE, 0, inspected::OPAQUE_TEXT),
        (inspected::TABLE, 0, inspected::TABLE_TEXT),
        (&inspected::OPAQUE[..20], 8, "error 8 b unityfs 1\n"),
        (&inspected::TABLE[..200], 8, "error 8 b unityfs 6\n"),
    ];
    for (bytes, status, text) in cases {
        let files = one_file(rt.alloc(), "b", bytes)?;
        assert!(rt;
            ends(rt.alloc(), "inspect b", files, NO_FAULT, status, text)?,
            "{text}"
        );
    }
    Ok(())
}

/// The project file of a folder `F`, and a file for its assets.
fn project_files(alloc: Global, toml: &str) -> Result<Vec<MemFile>, Fail> {
    let mut files = one_file(alloc, "F/project.toml", toml.as_bytes())?;
    add_file(alloc, &mut files, "F/a", b"A")?;
    Ok(files)
}

#[test]
fn plans_projects(rt: HostRuntime) -> Result<(), Fail> {
    for (toml, text) in [
        (planned::GAME, planned::GAME_TEXT),
        (planned::RING, planned::RING_TEXT),
        ("", ""),
    ] {
        let files = project_files(rt.alloc(), toml)?;
        assert!(rt;
            ends(rt.alloc(), "plan F", files, NO_FAULT, 0, text)?,
            "{text}"
        );
    }
    for (toml, status, text) in planned::REFUSED {
        let files = project_files(rt.alloc(), toml)?;
        assert!(rt;
            ends(rt.alloc(), "plan F", files, NO_FAULT, status, text)?,
            "{text}"
        );
    }
    let none = Vec::new(rt.alloc());
    assert!(rt; ends(rt.alloc(), "plan F", none, NO_FAULT, 4, "error 4 1 - 0\n")?);
    Ok(())
}

#[test]
fn prints_the_rows_of_catalogues(rt: HostRuntime) -> Result<(), Fail> {
    for (text, status, printed) in catalogued::CASES {
        let files = one_file(rt.alloc(), "c", text.as_bytes())?;
        assert!(rt;
            ends(rt.alloc(), "rows c", files, NO_FAULT, status, printed)?,
            "{printed}"
        );
    }
    let none = Vec::new(rt.alloc());
    assert!(rt; ends(rt.alloc(), "rows c", none, NO_FAULT, 5, "error 5 c\n")?);
    Ok(())
}

/// The catalogue of plain rows with the state of 16 zero bytes, where it can be written.
fn catalogue_of(alloc: Global, rows: &str) -> Result<Option<Vec<u8>>, Fail>
    requires { length rows.now < 2 ^ 32 }
{
    let Ok(locator) = read_rows(alloc, rows.as_bytes()) else {
        return Ok(None);
    };
    let catalogue = Catalogue {
        locator,
        state: Some(Digest([0; 16])),
    };
    if !can_write(alloc, &catalogue.locator)? {
        return Ok(None);
    }
    Ok(Some(write_catalog(alloc, &catalogue)?))
}

#[test]
fn the_worked_rows_are_written(rt: HostRuntime) -> Result<(), Fail> {
    let written = catalogue_of(rt.alloc(), worked::ROWS)?;
    assert!(rt; written.is_some_and(|text| text.as_slice() == catalogued::WRITTEN.as_bytes()));
    Ok(())
}

/// The name of the rows says how they are read.
#[test]
fn plays_over_a_catalogue(rt: HostRuntime) -> Result<(), Fail> {
    for (name, rows, status, printed) in [
        ("c.json", catalogued::WRITTEN, 0, "op 0\nbundle 1\n"),
        (".json", catalogued::WRITTEN, 0, "op 0\nbundle 1\n"),
        ("c.json", worked::ROWS, 7, "error 7 1\n"),
        ("c", catalogued::WRITTEN, 7, "error 7 line 1\n"),
    ] {
        let mut files = one_file(rt.alloc(), name, rows.as_bytes())?;
        add_file(
            rt.alloc(),
            &mut files,
            "s",
            b"load 0 one first %* bush\ntake 1\n",
        )?;
        let line = format!(in rt.alloc(); "simulate {name} s")?;
        assert!(rt;
            ends(rt.alloc(), line.as_str(), files, NO_FAULT, status, printed)?,
            "{name} {printed}"
        );
    }
    Ok(())
}
