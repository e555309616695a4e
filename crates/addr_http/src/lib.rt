//! The content server and the fetcher: what a request is answered, and what the bytes of a server mean
//! (docs/formats/http.md).
//!
//! Promise: `answer` writes exactly the one response to the request that the connection gives (`specs/Responses.antt`),
//! and reads no more than it needs; `HttpFetch` asks once, and answers what was received (`specs/Received.antt`).
//! Units: sizes in bytes. Left out: sockets (`addr_net`).
#![tactic(auto)]

mod answering;
mod bodies;
mod collecting;
mod fetch_answer;
mod fetching;
mod headed;
mod heads;
mod hearing;
mod http_fetch;
mod outcome;
mod receiving;
mod replies;
mod requests;
mod targets;
#[cfg(test)]
mod tests;

pub use answering::{Served, answer};
pub use heads::{Heard, head_end};
pub use hearing::hear;
pub use http_fetch::HttpFetch;
pub use replies::Reply;
pub use requests::{Asked, judge};
