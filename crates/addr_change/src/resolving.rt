// `resolve`: its words, and its end as a text and a status. What the files show under a key is decided by addr_resolve.
ghost use Rattle.std.specs.Prelude.{◌≡◌, ◌++◌, ◌∷◌, [], List, ℕ, IfOk, MatchOption, string_bytes};
ghost use Rattle.addr_base.specs.Faults.{one_more};
ghost use Rattle.addr_base.specs.Files.{SameStore};
ghost use Rattle.addr_resolve.specs.Laws.{answer_view};
ghost use Rattle.addr_resolve.specs.declared.error.ResolveErr.TheVariants.{BadBundle, NoKey, NoRelease};
ghost use Rattle.addr_change.specs.Printing.{HasCauses};
ghost use Rattle.addr_change.specs.Resolving.{AsksToResolve, IsComplete, IsResolveLine, PrintsEnd, ResolvesTo, TakesMemory, refused_line, resolved_status, resolved_text};

use crate::printing::{DEPOT_LINE, MEMORY_LINE, print, print_usage, print_want};
use crate::resolved_text::rows_text;
use addr_base::{Depot, Items, NoMemory, Sink, Text, token};
use addr_fields::is_same;
use addr_resolve::{BundleFault, ResolveErr, Resolved, answer_is_one, resolve};
use std::alloc::Global;

/// What `resolve` is asked for.
#[derive(Clone, Copy)]
struct ResolveRequest<'a> {
    folder: &'a Text,
    key: &'a Text,
}

/// Runs the command that prints what the release of a folder holds under a key, and answers its exit status: a line for each row
/// with the key, and one for each item that the row needs, by one put. All bundles of the catalogue are read, each once, and
/// no file changes.
pub fn run_resolve<D: Depot, K: Sink>(
    alloc: Global,
    words: &[Text],
    depot: &mut D,
    out: &mut K,
) -> u8
    ensures outcome { ResolvesTo words.now (D.now depot.old) (D.now depot.new) (K.now out.old) (K.now out.new) result }
    ensures causes { HasCauses (D.now depot.old) (D.now depot.new) (K.now out.old) (K.now out.new) result }
    // What the files decide is what is printed.
    ensures complete { IsComplete words.now (D.now depot.old) (K.now out.old) (K.now out.new) result }
    ensures one_put { (K.now out.new).puts ≡ one_more (K.now out.old).puts }
    ensures same { SameStore (D.now depot.old) (D.now depot.new) }
{
    answer_is_one();
    resolve_words(alloc, words, depot, out)
}

fn resolve_words<D: Depot, K: Sink>(alloc: Global, words: &[Text], depot: &mut D, out: &mut K) -> u8
    ensures outcome { ResolvesTo words.now (D.now depot.old) (D.now depot.new) (K.now out.old) (K.now out.new) result }
    ensures causes { HasCauses (D.now depot.old) (D.now depot.new) (K.now out.old) (K.now out.new) result }
    ensures one_put { (K.now out.new).puts ≡ one_more (K.now out.old).puts }
    ensures same { SameStore (D.now depot.old) (D.now depot.new) }
{
    let Some(request) = request_of(words) else {
        return print_usage(out);
    };
    let ended = resolve(alloc, depot, request.folder.as_str(), request.key.as_str());
    print_end(alloc, request.key.as_str(), &ended, out)
}

/// What the words ask `resolve` for, where they are its words.
fn request_of(words: &[Text]) -> Option<ResolveRequest<'_>>
    ensures { MatchOption result (IsResolveLine words.now → ⊥) (λ r. AsksToResolve words.now r.folder.now r.key.now) }
{
    match words {
        [command, folder, key] => {
            if is_same(command.as_bytes(), b"resolve") {
                Some(ResolveRequest { folder, key })
            } else {
                None
            }
        }
        _ => None,
    }
}

/// Prints the text of an end.
fn print_end<K: Sink>(
    alloc: Global,
    key: &str,
    ended: &Result<Items<Resolved>, ResolveErr>,
    out: &mut K,
) -> u8
    ensures prints { PrintsEnd key.now (answer_view ended.now) result (K.now out.old) (K.now out.new) }
    ensures once { (K.now out.new).puts ≡ one_more (K.now out.old).puts }
{
    match fixed_line(ended) {
        Some(line) => print(out, line, resolved_status(ended)),
        None => print_written(alloc, key, ended, out),
    }
}

/// The line of an end that is always the same; the text of another end has to be written.
fn fixed_line(ended: &Result<Items<Resolved>, ResolveErr>) -> Option<&'static [u8]>
    ensures { MatchOption result (TakesMemory (answer_view ended.now))
        (λ line. (key : List ℕ) → line.now ≡ resolved_text key (answer_view ended.now)) }
{
    match ended {
        Err(ResolveErr::NoMemory) => Some(MEMORY_LINE),
        Err(ResolveErr::DepotFault) => Some(DEPOT_LINE),
        Ok(_)
        | Err(ResolveErr::NoRelease(_))
        | Err(ResolveErr::BadCatalogue(_))
        | Err(ResolveErr::NoKey)
        | Err(ResolveErr::BadBundle { .. }) => None,
    }
}

/// Writes the text of an end and prints it, or the line that says that memory is wanted.
fn print_written<K: Sink>(
    alloc: Global,
    key: &str,
    ended: &Result<Items<Resolved>, ResolveErr>,
    out: &mut K,
) -> u8
    requires takes { TakesMemory (answer_view ended.now) }
    ensures prints { PrintsEnd key.now (answer_view ended.now) result (K.now out.old) (K.now out.new) }
    ensures once { (K.now out.new).puts ≡ one_more (K.now out.old).puts }
{
    match resolved_text(alloc, key, ended) {
        Ok(text) => print(out, text.as_bytes(), resolved_status(ended)),
        Err(NoMemory) => print_want(out),
    }
}

fn resolved_status(ended: &Result<Items<Resolved>, ResolveErr>) -> u8
    ensures { result ≡ resolved_status (answer_view ended.now) }
{
    match ended {
        Ok(_) => 0,
        Err(ResolveErr::NoMemory) => 1,
        Err(ResolveErr::DepotFault) => 3,
        Err(ResolveErr::NoRelease(_)) => 5,
        Err(ResolveErr::BadCatalogue(_)) => 7,
        Err(ResolveErr::BadBundle { .. }) => 8,
        Err(ResolveErr::NoKey) => 12,
    }
}

fn resolved_text(
    alloc: Global,
    key: &str,
    ended: &Result<Items<Resolved>, ResolveErr>,
) -> Result<String, NoMemory>
    ensures { IfOk result (λ text. string_bytes text ≡ resolved_text key.now (answer_view ended.now)) }
{
    match ended {
        Ok(rows) => rows_text(alloc, rows.as_slice()),
        Err(refusal) => refused_line(alloc, key, refusal),
    }
}

fn refused_line(alloc: Global, key: &str, refusal: &ResolveErr) -> Result<String, NoMemory>
    ensures { IfOk result (λ line. string_bytes line ≡ refused_line key.now refusal.now ++ 10 ∷ []) }
{
    match refusal {
        ResolveErr::NoMemory => Ok(String::from_str(alloc, "error 1 memory\n")?),
        ResolveErr::DepotFault => Ok(String::from_str(alloc, "error 3 depot\n")?),
        ResolveErr::NoRelease(name) => missing_line(alloc, name),
        ResolveErr::BadCatalogue(fault) => {
            let number = fault.number();
            Ok(format!(in alloc; "error 7 {number}\n")?)
        }
        ResolveErr::BadBundle { key, why } => bundle_line(alloc, key, why),
        ResolveErr::NoKey => key_line(alloc, key),
    }
}

fn missing_line(alloc: Global, name: &Text) -> Result<String, NoMemory>
    ensures { IfOk result (λ line. string_bytes line ≡ refused_line [] (NoRelease name.now) ++ 10 ∷ []) }
{
    let token = token(alloc, name.as_str())?;
    let name = token.as_str();
    Ok(format!(in alloc; "error 5 {name}\n")?)
}

fn key_line(alloc: Global, key: &str) -> Result<String, NoMemory>
    ensures { IfOk result (λ line. string_bytes line ≡ refused_line key.now NoKey ++ 10 ∷ []) }
{
    let token = token(alloc, key)?;
    let key = token.as_str();
    Ok(format!(in alloc; "error 12 {key}\n")?)
}

fn bundle_line(alloc: Global, bundle: &Text, why: &BundleFault) -> Result<String, NoMemory>
    ensures { IfOk result (λ line. string_bytes line ≡ refused_line [] (BadBundle bundle.now why.now) ++ 10 ∷ []) }
{
    let token = token(alloc, bundle.as_str())?;
    let name = token.as_str();
    match why {
        BundleFault::Missing => Ok(format!(in alloc; "error 8 {name} missing\n")?),
        BundleFault::Fs(fault) => {
            let number = fault.number().unwrap_or(0);
            Ok(format!(in alloc; "error 8 {name} unityfs {number}\n")?)
        }
        BundleFault::Cab(fault) => {
            let number = fault.number().unwrap_or(0);
            Ok(format!(in alloc; "error 8 {name} cab {number}\n")?)
        }
        BundleFault::Lost(guid) => {
            let guid = *guid;
            Ok(format!(in alloc; "error 8 {name} lost {guid}\n")?)
        }
    }
}
