// What a request head asks for.
ghost use Rattle.std.specs.Prelude.{◌≡◌, ◌<◌, ◌≤◌, ◌^◌, ◌==◌, length, take, IfOk, IfSome, All, count_by, slice_range, position, MatchOption, drop, IsTrue, IsUtf8, true, false, None, Some, bytes_eq};
ghost use Rattle.httparse.specs.Spans.{IsHeaderWithin, IsRequestAt, IsRequestWithin, span_bytes};
ghost use Rattle.httparse.specs.Grammar.{RequestHead};
ghost use Rattle.addr_http.specs.Requests.{asked_by, asked_of, has_bad_hosts, is_ascii_word, is_host, is_named, is_plain_name, method_of, name_of, origin_form, path_of, wanted, Judges};

use addr_base::{NoMemory, Text};
use addr_fields::{after_word, cut_at, is_same};
use httparse::Status;
use httparse::spans::{EMPTY_HEADER_SPAN, HeaderSpan, RequestSpans, parse_request};
use std::alloc::Global;

/// What is asked of the server.
#[derive(Drop)]
pub enum Asked {
    /// The head doesn't end within the room.
    TooLarge,
    Bad,
    NotAllowed,
    /// A path that names no file.
    Absent,
    Wants { head_only: bool, name: Text },
}

#[derive(Clone, Copy)]
pub enum Method {
    Get,
    Head,
    Other,
}

fn is_name(text: &[u8], name: &[u8]) -> bool
    ensures { result ≡ is_named name.now text.now }
{
    text.eq_ignore_ascii_case(name)
}

fn hosts(head: &[u8], fields: &[HeaderSpan]) -> usize
    requires { All (IsHeaderWithin (length head.now)) fields.now }
    ensures { result ≡ count_by (λ s. is_host (span_bytes head.now s.name)) fields.now }
{
    let mut count = 0;
    for field in fields {
        if is_name(field.name.of(head), b"host") {
            count += 1;
        }
    }
    count
}

fn method_of(bytes: &[u8]) -> Method
    ensures { result ≡ method_of bytes.now }
{
    if is_same(bytes, b"GET") {
        Method::Get
    } else if is_same(bytes, b"HEAD") {
        Method::Head
    } else {
        Method::Other
    }
}

fn has_bad_hosts(minor: u8, hosts: usize) -> bool
    ensures { result ≡ has_bad_hosts minor hosts }
{
    hosts > 1 || (minor == 1 && hosts == 0)
}

fn first_of(text: &[u8], mark: u8) -> Option<usize>
    ensures { result ≡ position (λ b. b == mark) text.now }
{
    text.iter().position(|b| *b == mark)
}

pub fn place_of(text: &[u8], mark: u8) -> Option<usize>
    ensures value { result ≡ position (λ b. b == mark) text.now }
    ensures fits { IfSome result (λ n. n < length text.now) }
    ensures before { IsUtf8 text.now → mark < 128 → IfSome result (λ n. IsUtf8 (take n text.now)) }
    ensures from { IsUtf8 text.now → mark < 128 → IfSome result (λ n. IsUtf8 (drop n text.now)) }
{
    first_of(text, mark)
}

pub fn behind<'a>(text: &'a [u8], word: &[u8]) -> Option<&'a [u8]>
    requires ascii { IsTrue (is_ascii_word word.now) }
    ensures value { MatchOption result (bytes_eq (take (length word.now) text.now) word.now ≡ false)
        (λ rest. (bytes_eq (take (length word.now) text.now) word.now ≡ true)
        × (rest.now ≡ drop (length word.now) text.now)) }
    ensures text { IsUtf8 text.now → IfSome result (λ rest. IsUtf8 rest.now) }
{
    match after_word(text, word) {
        Some(rest) => Some(rest),
        None => None,
    }
}

fn origin_form(target: &[u8]) -> &[u8]
    ensures value { result.now ≡ origin_form target.now }
    ensures text { IsUtf8 target.now → IsUtf8 result.now }
{
    match behind(target, b"http://") {
        Some(rest) => match place_of(rest, b'/') {
            Some(at) => &rest[at..],
            None => b"/".as_slice(),
        },
        None => target,
    }
}

fn path_of(target: &[u8]) -> &[u8]
    ensures value { result.now ≡ path_of target.now }
    ensures text { IsUtf8 target.now → IsUtf8 result.now }
{
    let path = origin_form(target);
    match place_of(path, b'?') {
        Some(at) => &path[..at],
        None => path,
    }
}

fn is_plain_name(name: &[u8]) -> bool
    ensures { result ≡ is_plain_name name.now }
{
    !name.is_empty() && !name.contains(&b'/') && !is_same(name, b".") && !is_same(name, b"..")
}

fn name_of(path: &[u8]) -> Option<&[u8]>
    ensures value { MatchOption result (name_of path.now ≡ None) (λ name. name_of path.now ≡ Some name.now) }
    ensures text { IsUtf8 path.now → IfSome result (λ name. IsUtf8 name.now) }
{
    match behind(path, b"/remote/") {
        Some(name) => {
            if is_plain_name(name) {
                Some(name)
            } else {
                None
            }
        }
        None => None,
    }
}

fn wanted(alloc: Global, head_only: bool, target: &[u8]) -> Result<Asked, NoMemory>
    requires { IsUtf8 target.now }
    ensures { IfOk result (λ asked. asked ≡ wanted head_only (name_of (path_of target.now))) }
{
    match name_of(path_of(target)) {
        Some(name) => match std::str::from_utf8(name) {
            Ok(text) => Ok(Asked::Wants {
                head_only,
                name: Text::copy_of(alloc, text)?,
            }),
            Err(_) => Ok(Asked::Absent),
        },
        None => Ok(Asked::Absent),
    }
}

fn asked_by(
    alloc: Global,
    method: &[u8],
    target: &[u8],
    minor: u8,
    hosts: usize,
) -> Result<Asked, NoMemory>
    requires { IsUtf8 target.now }
    ensures { IfOk result (λ asked. asked ≡ asked_by method.now target.now minor hosts) }
{
    if has_bad_hosts(minor, hosts) {
        return Ok(Asked::Bad);
    }
    match method_of(method) {
        Method::Get => wanted(alloc, false, target),
        Method::Head => wanted(alloc, true, target),
        Method::Other => Ok(Asked::NotAllowed),
    }
}

fn asked_of(
    alloc: Global,
    head: &[u8],
    parts: RequestSpans,
    fields: &[HeaderSpan],
) -> Result<Asked, NoMemory>
    requires within { IsRequestWithin head.now fields.now parts }
    requires text { IsUtf8 (span_bytes head.now parts.path) }
    ensures { IfOk result (λ asked. asked ≡ asked_by (span_bytes head.now parts.method) (span_bytes head.now parts.path)
        parts.version (count_by (λ s. is_host (span_bytes head.now s.name)) (take parts.headers fields.now))) }
{
    let count = hosts(head, &fields[..parts.headers]);
    asked_by(
        alloc,
        parts.method.of(head),
        parts.path.of(head),
        parts.version,
        count,
    )
}

fn judged(alloc: Global, head: &[u8], fields: &mut [HeaderSpan]) -> Result<Asked, NoMemory>
    requires { length fields.old ≡ 4096 }
    ensures { IfOk result (λ asked. Judges head.now asked) }
{
    match parse_request(head, fields) {
        Ok(Status::Complete(parts)) => {
            if parts.len == head.len() {
                asked_of(alloc, head, parts, fields)
            } else {
                Ok(Asked::Bad)
            }
        }
        _ => Ok(Asked::Bad),
    }
}

/// What exactly these bytes ask for, as the head of a request.
pub fn judge(alloc: Global, head: &[u8]) -> Result<Asked, NoMemory>
    ensures { IfOk result (λ asked. Judges head.now asked) }
{
    let mut fields = vec![in alloc; EMPTY_HEADER_SPAN; 4096]?;
    judged(alloc, head, &mut fields)
}
