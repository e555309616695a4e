// Ids over HTTP.
ghost use Rattle.std.specs.Prelude.{◌≡◌, ◌==◌, ◌&&◌, List, ℕ, IfOk, IfSome, MatchOption, None, Some, drop, position, slice_index, string_bytes, IsUtf8};
ghost use Rattle.std.specs.List.{list_all};
ghost use Rattle.addr_http.specs.Targets.{Address, address_at, address_in, address_of, address_with, is_host, is_host_byte, is_path_byte, port_at, port_said, request_text};

use crate::headed::{Said, number_said};
use crate::requests::{behind, place_of};
use addr_base::NoMemory;
use std::alloc::Global;

/// Where an id leads.
#[derive(Clone, Copy)]
pub struct Target<'a> {
    pub host: &'a [u8],
    pub port: u16,
    pub path: &'a [u8],
}

fn are_host_bytes(host: &[u8]) -> bool
    ensures { result ≡ list_all is_host_byte host.now }
{
    host.iter()
        .all(|b| b.is_ascii_alphanumeric() || *b == b'-' || *b == b'.')
}

fn are_path_bytes(path: &[u8]) -> bool
    ensures { result ≡ list_all is_path_byte path.now }
{
    path.iter().all(|b| *b >= 0x21 && *b <= 0x7e)
}

fn is_host(host: &[u8]) -> bool
    ensures { result ≡ is_host host.now }
{
    !host.is_empty() && host.len() <= 255 && are_host_bytes(host)
}

fn port_said(text: &[u8]) -> Option<u16>
    ensures { result ≡ port_said text.now }
{
    if !text.is_empty() && text[0] == b'0' {
        return None;
    }
    match number_said(text) {
        Said::Sized(n) => {
            if n > 0 && n < 65536 {
                Some(n as u16)
            } else {
                None
            }
        }
        _ => None,
    }
}

fn is_address(host: &[u8], path: &[u8]) -> bool
    ensures { result ≡ (is_host host.now && list_all is_path_byte path.now) }
{
    is_host(host) && are_path_bytes(path)
}

fn target_with<'a>(host: &'a [u8], path: &'a [u8], port: Option<u16>) -> Option<Target<'a>>
    ensures value { MatchOption result (address_with host.now path.now port ≡ None)
        (λ t. address_with host.now path.now port
        ≡ Some (record { host = t.host.now; port = t.port; path = t.path.now })) }
    ensures text { IfSome result (λ t. IsUtf8 t.host.now × IsUtf8 t.path.now) }
{
    match port {
        Some(port) => {
            if is_address(host, path) {
                Some(Target { host, port, path })
            } else {
                None
            }
        }
        None => None,
    }
}

fn target_of<'a>(authority: &'a [u8], path: &'a [u8]) -> Option<Target<'a>>
    ensures value { MatchOption result (address_of authority.now path.now ≡ None)
        (λ t. address_of authority.now path.now
        ≡ Some (record { host = t.host.now; port = t.port; path = t.path.now })) }
    ensures text { IfSome result (λ t. IsUtf8 t.host.now × IsUtf8 t.path.now) }
{
    match place_of(authority, b':') {
        Some(at) => target_with(&authority[..at], path, port_said(&authority[at + 1..])),
        None => target_with(authority, path, Some(80)),
    }
}

fn target_at(rest: &[u8]) -> Option<Target<'_>>
    ensures value { MatchOption result (address_at (position (λ b. b == 47) rest.now) rest.now ≡ None)
        (λ t. address_at (position (λ b. b == 47) rest.now) rest.now
        ≡ Some (record { host = t.host.now; port = t.port; path = t.path.now })) }
    ensures text { IfSome result (λ t. IsUtf8 t.host.now × IsUtf8 t.path.now) }
{
    match place_of(rest, b'/') {
        Some(at) => target_of(&rest[..at], &rest[at..]),
        None => None,
    }
}

/// Where the id leads, if it is one over HTTP.
pub fn target_in(id: &[u8]) -> Option<Target<'_>>
    ensures value { MatchOption result (address_in id.now ≡ None)
        (λ t. address_in id.now
        ≡ Some (record { host = t.host.now; port = t.port; path = t.path.now })) }
    ensures text { IfSome result (λ t. IsUtf8 t.host.now × IsUtf8 t.path.now) }
{
    match behind(id, b"http://") {
        Some(rest) => target_at(rest),
        None => None,
    }
}

/// The bytes as a text.
pub fn as_text(bytes: &[u8]) -> &str
    requires { IsUtf8 bytes.now }
    ensures { result.now ≡ bytes.now }
{
    match std::str::from_utf8(bytes) {
        Ok(text) => text,
        Err(_) => "",
    }
}

pub fn request_with(alloc: Global, host: &str, port: u16, path: &str) -> Result<String, NoMemory>
    ensures { IfOk result (λ text. string_bytes text
        ≡ request_text (record { host = host.now; port = port; path = path.now })) }
{
    Ok(format!(in alloc;
        "GET {path} HTTP/1.1\r\nHost: {host}:{port}\r\nConnection: close\r\n\r\n"
    )?)
}
