// The head and the body of an answer.
ghost use Rattle.std.specs.Prelude.{◌≡◌, IfOk, string_bytes};
ghost use Rattle.addr_http.specs.Responses.{own_line, reply_body, reply_head, reply_length, reply_status};

use addr_base::{Items, NoMemory};
use http::StatusCode;
use std::alloc::Global;

/// What is answered.
#[derive(Drop)]
pub enum Reply {
    TooLarge,
    Bad,
    NotAllowed,
    NotFound,
    /// The depot failed.
    Failed,
    File { head_only: bool, bytes: Items<u8> },
}

pub fn status(reply: &Reply) -> StatusCode
    ensures { result ≡ reply_status reply.now }
{
    match reply {
        Reply::TooLarge => StatusCode::REQUEST_HEADER_FIELDS_TOO_LARGE,
        Reply::Bad => StatusCode::BAD_REQUEST,
        Reply::NotAllowed => StatusCode::METHOD_NOT_ALLOWED,
        Reply::NotFound => StatusCode::NOT_FOUND,
        Reply::Failed => StatusCode::INTERNAL_SERVER_ERROR,
        Reply::File { .. } => StatusCode::OK,
    }
}

fn own_line(reply: &Reply) -> &str
    ensures { result.now ≡ own_line reply.now }
{
    match reply {
        Reply::NotAllowed => "Allow: GET, HEAD\r\n",
        Reply::File { .. } => "Content-Type: application/octet-stream\r\n",
        _ => "",
    }
}

fn length(reply: &Reply) -> usize
    ensures { result ≡ reply_length reply.now }
{
    match reply {
        Reply::File { bytes, .. } => bytes.len(),
        _ => 0,
    }
}

pub fn body(reply: &Reply) -> &[u8]
    ensures { result.now ≡ reply_body reply.now }
{
    match reply {
        Reply::File { head_only, bytes } => {
            if *head_only {
                b"".as_slice()
            } else {
                bytes.as_slice()
            }
        }
        _ => b"".as_slice(),
    }
}

/// The head of the answer.
pub fn head(alloc: Global, reply: &Reply) -> Result<String, NoMemory>
    ensures { IfOk result (λ text. string_bytes text ≡ reply_head reply.now) }
{
    let status = status(reply);
    let length = length(reply);
    let own = own_line(reply);
    Ok(format!(in alloc;
        "HTTP/1.1 {status}\r\nContent-Length: {length}\r\n{own}Connection: close\r\n\r\n"
    )?)
}
