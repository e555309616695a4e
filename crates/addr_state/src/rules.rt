// The rules that a bundle keeps.
ghost use Rattle.std.specs.Prelude.{◌≡◌, ◌&&◌, ◌++◌, ◌∷◌, [], List, IfOk, string_bytes};
ghost use Rattle.std.specs.List.{list_all};
ghost use Rattle.std.specs.Option.{option_copied};
ghost use Rattle.addr_base.specs.declared.ids.Guid.{Guid as GuidOf};
ghost use Rattle.addr_base.specs.Escapes.{escaped};
ghost use Rattle.addr_state.specs.Files.{is_bundle_byte};
ghost use Rattle.addr_state.specs.Rules.{is_above, is_entry, guids_ascend, texts_ascend, is_group, is_name, is_file, has_texts, has_lists};
ghost use Rattle.addr_state.specs.within.Seen.{HasGuids, is_new_in};

use crate::files::side_file;
use crate::model::StateBundle;
use crate::seen::{is_seen, set_of};
use addr_base::{Digest, Guid, NoMemory, Text, esc};
use std::alloc::Global;
use std::collections::BTreeSet;

/// The most bytes of a group's name.
const MAX_GROUP: usize = 255;

/// The most bytes of a bundle's name, so that its file's name fits a folder's entry.
const MAX_NAME: usize = 200;

/// The most bytes of an internal id: an expanded text of 1,024 bytes and a file's name fit.
const MAX_ID: usize = 1400;

/// The group of moved entries, which no project names.
const MOVED_GROUP: &str = "Content Update";

/// Whether bytes stand above others, or there are no others.
fn is_above(bytes: &[u8], before: Option<&[u8]>) -> bool
    ensures { result ≡ is_above bytes.now (option_copied before.entry) }
{
    match before {
        Some(before) => before.cmp(bytes).is_lt(),
        None => true,
    }
}

#[tactic(auto, unfolding(crate::specs::Rules::ascends))]
fn guids_ascend(guids: &[Guid]) -> bool
    ensures { result ≡ guids_ascend guids.now }
{
    let mut before: Option<&[u8]> = None;
    for guid in guids {
        let bytes: &[u8] = &guid.0;
        if !is_above(bytes, before) {
            return false;
        }
        before = Some(bytes);
    }
    true
}

#[tactic(auto, unfolding(crate::specs::Rules::ascends))]
pub fn texts_ascend(texts: &[Text]) -> bool
    ensures { result ≡ texts_ascend texts.now }
{
    let mut before: Option<&[u8]> = None;
    for text in texts {
        let bytes = text.as_bytes();
        if !is_above(bytes, before) {
            return false;
        }
        before = Some(bytes);
    }
    true
}

fn is_group(group: &str) -> bool
    ensures { result ≡ is_group group.now }
{
    1 <= group.len() && (group.len() <= MAX_GROUP && !(group == MOVED_GROUP))
}

fn is_name_byte(b: u8) -> bool
    ensures { result ≡ is_bundle_byte b }
{
    b == b'_'
        || (b == b'~'
            || ((b'A' <= b && b <= b'Z')
                || (b'a' <= b && b <= b'z')
                || (b'0' <= b && b <= b'9')
                || b == b'-'))
}

fn are_name_bytes(name: &[u8]) -> bool
    ensures { result ≡ list_all is_bundle_byte name.now }
{
    name.iter().all(|b| is_name_byte(*b))
}

/// What a bundle's name begins with.
fn name_front(alloc: Global, group: &str) -> Result<String, NoMemory>
    ensures { IfOk result (λ front. string_bytes front ≡ escaped group.now ++ 95 ∷ []) }
{
    let mut front = esc(alloc, group)?.into_string();
    front.push('_')?;
    Ok(front)
}

fn is_name(alloc: Global, group: &str, name: &str) -> Result<bool, NoMemory>
    ensures { IfOk result (λ good. good ≡ is_name group.now name.now) }
{
    let front = name_front(alloc, group)?;
    Ok(
        name.len() <= MAX_NAME
            && (are_name_bytes(name.as_bytes()) && name.as_bytes().starts_with(front.as_bytes())),
    )
}

fn is_file(alloc: Global, file: &str, name: &str, digest: Digest) -> Result<bool, NoMemory>
    ensures { IfOk result (λ good. good ≡ is_file file.now name.now digest) }
{
    let local = side_file(alloc, false, name, digest)?;
    let remote = side_file(alloc, true, name, digest)?;
    Ok(file == local.as_str() || file == remote.as_str())
}

/// Whether the texts of a bundle keep the rules.
#[tactic(auto, unfolding(crate::specs::Rules::has_texts))]
pub fn has_texts(alloc: Global, above: Option<&[u8]>, b: &StateBundle) -> Result<bool, NoMemory>
    ensures { IfOk result (λ good. good ≡ has_texts (option_copied above.entry) b.now) }
{
    let named = is_name(alloc, b.group.as_str(), b.name.as_str())?;
    let filed = is_file(alloc, b.file.as_str(), b.name.as_str(), b.digest)?;
    Ok(
        is_group(b.group.as_str())
            && (named && (is_above(b.name.as_bytes(), above) && (filed && b.id.len() <= MAX_ID))),
    )
}

fn is_new_in(earlier: &BTreeSet<Guid>, objects: &BTreeSet<Guid>, guid: &Guid) -> bool
    ensures { result ≡ is_new_in earlier.now objects.now guid.now }
{
    is_seen(objects, guid) && !is_seen(earlier, guid)
}

fn are_new_in(earlier: &BTreeSet<Guid>, objects: &BTreeSet<Guid>, guids: &[Guid]) -> bool
    ensures { result ≡ list_all (is_new_in earlier.now objects.now) guids.now }
{
    guids.iter().all(|guid| is_new_in(earlier, objects, guid))
}

/// Whether each entry is an object, and no earlier entry.
fn are_entries(
    alloc: Global,
    earlier: &BTreeSet<Guid>,
    objects: &[Guid],
    entries: &[Guid],
) -> Result<bool, NoMemory>
    ensures { (before : List GuidOf) → HasGuids earlier.now before → IfOk result
        (λ good. good ≡ list_all (is_entry before objects.now) entries.now) }
{
    let objects = set_of(alloc, objects)?;
    Ok(are_new_in(earlier, &objects, entries))
}

fn do_ascend(b: &StateBundle) -> bool
    ensures { result ≡ (guids_ascend b.now.entries && guids_ascend b.now.objects) }
{
    guids_ascend(b.entries.as_slice()) && guids_ascend(b.objects.as_slice())
}

fn are_both(a: bool, b: bool) -> bool
    ensures { result ≡ (a && b) }
{
    a && b
}

/// Whether the lists of a bundle keep the rules, behind the entries of earlier ones.
pub fn has_lists(alloc: Global, earlier: &BTreeSet<Guid>, b: &StateBundle) -> Result<bool, NoMemory>
    ensures { (before : List GuidOf) → HasGuids earlier.now before → IfOk result
        (λ good. good ≡ has_lists before b.now) }
{
    let fit = are_entries(alloc, earlier, b.objects.as_slice(), b.entries.as_slice())?;
    let ascend = do_ascend(b);
    Ok(are_both(ascend, fit))
}
