// Plays a script on the machine, one command after the other, and writes each reply on a line of its own.
ghost use Rattle.std.specs.Prelude.{◌≡◌, ◌<◌, ◌^◌, [], IfOk, IfSome, OnOk, Ok, Err, length, map, slice_get, string_bytes, unwrap_or};
ghost use Rattle.std.specs.Option.{option_map};
ghost use Rattle.addr_history.specs.Answers.{acquire_adds, acquire_reply, close_adds, close_reply, count_reply, fail_adds, fail_reply, load_adds, load_reply, release_adds, release_reply, status_reply};
ghost use Rattle.addr_history.specs.declared.reading.ReadErr.TheVariants.{NoMemory as ReadNoMemory};
ghost use Rattle.addr_core.specs.Machine.{grown};
ghost use Rattle.addr_locate.specs.Rows.{key_of};
ghost use Rattle.addr_script.specs.Commands.{IsCommand};
ghost use Rattle.addr_script.specs.Scripts.{IsLimit};
ghost use Rattle.addr_script.specs.declared.command.Command.TheVariants.{Done, Read};
ghost use Rattle.addr_simulate.specs.SimText.{acquire_answer, ask_of, asked_kind, close_answer, count_answer, fail_answer, key_token, load_answer, read_all_answer, read_answer, read_refusal, release_answer, sim_objects, status_answer, Plays, PlaysAs, SimulatesScript};
ghost use Rattle.addr_simulate.specs.Reading.{IsToldRead, IsToldReadAll};

use crate::sim_image::SimImage;
use addr_base::{BundleNo, Cause, Items, KeyNo, NoMemory, OpId, Text, token};
use addr_core::{AcquireErr, Ask, Core, Item2, LoadErr, OpStatus, ReadErr};
use addr_locate::{Kind, Locator, Merge};
use addr_script::{
    Command, Grammar, Reply, ScriptErr, content, items_text, next_command, read_head,
};
use std::alloc::Global;
use std::fmt::Write;

/// The most events of a script without a limit.
const DEFAULT_LIMIT: u32 = 100_000;

/// The replies to the commands of the script over the rows, one line each. Each line is played as it is read, so that no list of
/// commands is kept; what was played before a bad line is let go.
pub fn simulate(alloc: Global, locator: Locator, script: &[u8]) -> Result<Text, ScriptErr>
    ensures { SimulatesScript locator script.now result }
{
    let head = read_head(alloc, script)?;
    let mut core = Core::open(alloc, locator, limit_of(head.limit))?;
    let mut text = String::new(alloc);
    let mut rest = head.rest;
    let mut number = head.next;
    while let Some((command, after)) = next_command(alloc, Grammar::Simulate, rest, number)? {
        play_line(alloc, &mut core, &command, &mut text)?;
        rest = after;
        number += 1;
    }
    Ok(Text::from_string(text))
}

fn limit_of(limit: Option<u32>) -> u32
    requires { IfSome limit IsLimit }
    ensures is { result ≡ unwrap_or limit 100000 }
    ensures fits { IsLimit result }
{
    match limit {
        Some(limit) => limit,
        None => DEFAULT_LIMIT,
    }
}

/// Puts one command to the machine, and writes the line of its reply.
fn play_line(
    alloc: Global,
    core: &mut Core<SimImage>,
    command: &Command,
    text: &mut String,
) -> Result<(), NoMemory>
    requires { IsCommand command.now }
    ensures { OnOk result (PlaysAs core.old command.now (string_bytes text.old) core.new (string_bytes text.new)) }
{
    let reply = play(alloc, core, command)?;
    writeln!(text, "{reply}")?;
    Ok(())
}

/// Puts one command to the machine, and gives its reply.
fn play(alloc: Global, core: &mut Core<SimImage>, command: &Command) -> Result<Reply, NoMemory>
    requires { IsCommand command.now }
    ensures { IfOk result (λ reply. Plays core.old command.now reply core.new) }
{
    match command {
        Command::Load {
            caller,
            all,
            mode,
            kind,
            keys,
        } => {
            let ask = ask_of(alloc, core.locator(), *all, *mode, kind, keys)?;
            let reply = load(alloc, core, *caller, ask, keys)?;
            Ok(reply)
        }
        Command::Acquire { caller, op } => Ok(acquire(core, *caller, *op)),
        Command::Release { caller, op } => Ok(release(core, *caller, *op)),
        Command::Status(op) => Ok(status(core, *op)),
        Command::Wait(op) => Ok(status(core, *op)),
        Command::References(op) => Ok(Reply::References(core.references(*op))),
        Command::Read { op, i } => {
            let reply = read(alloc, core, *op, *i)?;
            Ok(reply)
        }
        Command::ReadAll { op, i } => {
            let reply = read_all(alloc, core, *op, *i)?;
            Ok(reply)
        }
        Command::Count(b) => Ok(count(core, *b)),
        Command::Close => Ok(close(core)),
        Command::Take { worker } => Ok(Reply::Next(core.take(*worker))),
        Command::Done { worker, b } => Ok(done(core, *worker, *b)),
        Command::Fail { worker, b, cause } => Ok(fail(core, *worker, *b, *cause)),
    }
}

fn acquire(core: &mut Core<SimImage>, caller: u32, op: OpId) -> Reply
    ensures reply { result ≡ acquire_answer (acquire_reply core.old.rows core.old.limit core.old.history op) }
    ensures machine { core.new ≡ grown core.old
        (acquire_adds (acquire_reply core.old.rows core.old.limit core.old.history op) caller op) }
{
    match core.acquire(caller, op) {
        Ok(()) => Reply::Acquired,
        Err(AcquireErr::NoHandle) => Reply::NoHandle,
        Err(
            AcquireErr::JournalFull {
                used,
                reserved,
                needed,
            },
        ) => Reply::JournalFull {
            used,
            reserved,
            needed: u64::from(needed),
        },
    }
}

fn release(core: &mut Core<SimImage>, caller: u32, op: OpId) -> Reply
    ensures reply { result ≡ release_answer (release_reply core.old.history op) }
    ensures machine { core.new ≡ grown core.old (release_adds core.old.history caller op) }
{
    match core.release(caller, op) {
        Ok(()) => Reply::Released,
        Err(_) => Reply::NoHandle,
    }
}

fn status(core: &Core<SimImage>, op: OpId) -> Reply
    ensures { result ≡ status_answer (status_reply core.now.rows core.now.history op) }
{
    match core.status(op) {
        Ok(status) => Reply::Status(status),
        Err(_) => Reply::NoHandle,
    }
}

/// The bytes of an asset. Each bundle that a ready operation needs has the image that a script hands in.
fn read(alloc: Global, core: &Core<SimImage>, op: OpId, i: u32) -> Result<Reply, NoMemory>
    ensures { IfOk result (IsToldRead core.now.rows core.now.history op i) }
{
    let _journal = core.journal();
    let reply = read_reply(alloc, core.read(op, i))?;
    Ok(reply)
}

/// The bytes of an asset and of all that it leads to.
fn read_all(alloc: Global, core: &Core<SimImage>, op: OpId, i: u32) -> Result<Reply, NoMemory>
    ensures { IfOk result (IsToldReadAll core.now.rows core.now.history op i) }
{
    let _journal = core.journal();
    let reply = read_all_reply(alloc, core.read_all(op, i))?;
    Ok(reply)
}

/// What a read is told; want of memory ends the run.
pub fn read_reply(alloc: Global, answer: Result<Items<u8>, ReadErr>) -> Result<Reply, NoMemory>
    ensures told { IfOk result (λ reply. reply ≡ read_answer answer) }
    ensures given { OnOk result (answer ≡ Err ReadNoMemory → ⊥) }
{
    match answer {
        Ok(bytes) => shown(alloc, bytes.as_slice()),
        Err(refusal) => refused(refusal),
    }
}

/// What a read of all that an asset leads to is told; want of memory ends the run.
pub fn read_all_reply(
    alloc: Global,
    answer: Result<Items<Item2>, ReadErr>,
) -> Result<Reply, NoMemory>
    ensures told { IfOk result (λ reply. reply ≡ read_all_answer answer) }
    ensures given { OnOk result (answer ≡ Err ReadNoMemory → ⊥) }
{
    match answer {
        Ok(items) => shown_all(alloc, items.as_slice()),
        Err(refusal) => refused(refusal),
    }
}

fn refused(refusal: ReadErr) -> Result<Reply, NoMemory>
    ensures told { IfOk result (λ reply. reply ≡ read_refusal refusal) }
    ensures given { OnOk result (refusal ≡ ReadNoMemory → ⊥) }
{
    match refusal {
        ReadErr::NoHandle => Ok(Reply::NoHandle),
        ReadErr::NoAsset => Ok(Reply::NoAsset),
        ReadErr::Pending => Ok(Reply::Status(OpStatus::Pending)),
        ReadErr::Failed(b, cause) => Ok(Reply::Status(OpStatus::Failed(b, cause))),
        ReadErr::Absent(b) => Ok(Reply::AbsentFrom(b)),
        ReadErr::NoMemory => Err(NoMemory),
    }
}

fn shown_all(alloc: Global, items: &[Item2]) -> Result<Reply, NoMemory>
    ensures { IfOk result (λ reply. reply ≡ read_all_answer (Ok items.now)) }
{
    let shown = items_text(alloc, items)?;
    Ok(Reply::All(items.len() as u64, shown))
}

fn shown(alloc: Global, bytes: &[u8]) -> Result<Reply, NoMemory>
    ensures { IfOk result (λ reply. reply ≡ read_answer (Ok bytes.now)) }
{
    let shown = content(alloc, bytes)?;
    Ok(Reply::Bytes(bytes.len() as u64, shown))
}

fn count(core: &Core<SimImage>, b: BundleNo) -> Reply
    ensures { result ≡ count_answer (count_reply core.now.rows core.now.history b) }
{
    match core.count(b) {
        Some((count, state)) => Reply::Counted(count, state),
        None => Reply::NoBundle,
    }
}

fn close(core: &mut Core<SimImage>) -> Reply
    ensures reply { result ≡ close_answer (close_reply core.old.history) }
    ensures machine { core.new ≡ grown core.old (close_adds core.old.history) }
{
    if core.close() {
        Reply::NowClosed
    } else {
        Reply::Closed
    }
}

fn fail(core: &mut Core<SimImage>, worker: u32, b: BundleNo, cause: Cause) -> Reply
    ensures reply { result ≡ fail_answer (fail_reply core.old.history worker b) }
    ensures machine { core.new ≡ grown core.old (fail_adds core.old.history worker b cause) }
{
    match core.fail(worker, b, cause) {
        Ok(()) => Reply::Noted,
        Err(_) => Reply::NotTaken,
    }
}

fn done(core: &mut Core<SimImage>, worker: u32, b: BundleNo) -> Reply
    ensures { Plays core.old (Done worker b) result core.new }
{
    match core.done(worker, b, SimImage) {
        Ok(settled) => Reply::Settled(settled),
        Err(_) => Reply::NotTaken,
    }
}

fn load(
    alloc: Global,
    core: &mut Core<SimImage>,
    caller: u32,
    ask: Ask,
    keys: &Items<Text>,
) -> Result<Reply, NoMemory>
    requires { length ask.keys < 2 ^ 32 }
    ensures reply { IfOk result
        (λ reply. reply ≡ load_answer keys.now (load_reply core.old.rows core.old.limit core.old.history ask)) }
    ensures grows { OnOk result
        (core.new ≡ grown core.old
        (load_adds (load_reply core.old.rows core.old.limit core.old.history ask) caller ask)) }
{
    match core.load(caller, ask) {
        Ok(op) => Ok(Reply::Opened(op)),
        Err(LoadErr::Closed) => Ok(Reply::Closed),
        Err(LoadErr::NoLocation { first }) => Ok(Reply::NoLocation(named_key(alloc, keys, first)?)),
        Err(
            LoadErr::JournalFull {
                used,
                reserved,
                needed,
            },
        ) => Ok(Reply::JournalFull {
            used,
            reserved,
            needed,
        }),
        Err(LoadErr::NoMemory) => Err(NoMemory),
    }
}

/// The token of the key at the place, where there is one.
pub fn named_key(
    alloc: Global,
    keys: &Items<Text>,
    place: Option<u32>,
) -> Result<Option<Text>, NoMemory>
    ensures { IfOk result (λ named. named ≡ option_map (key_token keys.now) place) }
{
    match place {
        Some(place) => {
            let named = token(alloc, key_at(keys, place))?;
            Ok(Some(named))
        }
        None => Ok(None),
    }
}

fn key_at(keys: &Items<Text>, place: u32) -> &str
    ensures { result.now ≡ unwrap_or (slice_get keys.now place) [] }
{
    match keys.get(place as usize) {
        Some(key) => key.as_str(),
        None => "",
    }
}

/// What a load asks the machine for: its keys and its type by number.
pub fn ask_of(
    alloc: Global,
    locator: &Locator,
    all: bool,
    mode: Merge,
    kind: &Option<Text>,
    keys: &Items<Text>,
) -> Result<Ask, NoMemory>
    ensures ask { IfOk result (λ ask. ask ≡ ask_of locator.now all mode kind.now keys.now) }
    ensures count { IfOk result (λ ask. length ask.keys ≡ length keys.now) }
{
    Ok(Ask {
        keys: key_numbers(alloc, locator, keys.as_slice())?,
        mode,
        kind: asked_kind(locator, kind),
        all,
    })
}

fn key_numbers(
    alloc: Global,
    locator: &Locator,
    keys: &[Text],
) -> Result<Items<Option<KeyNo>>, NoMemory>
    ensures { IfOk result (λ numbers. numbers ≡ map (key_of locator.now) keys.now) }
{
    let mut numbers = Items::new(alloc);
    for key in keys {
        numbers.push(locator.key_no(key.as_str()))?;
    }
    Ok(numbers)
}

fn asked_kind(locator: &Locator, kind: &Option<Text>) -> Kind
    ensures { result ≡ asked_kind locator.now kind.now }
{
    match kind {
        None => Kind::Any,
        Some(text) => match locator.type_no(text.as_str()) {
            Some(number) => Kind::Known(number),
            None => Kind::Unknown,
        },
    }
}
