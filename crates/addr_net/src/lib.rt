//! The edge to the net: connections, a listener and a connector over the system's sockets.
//!
//! Promise: each adapter meets its trait of `addr_wire`: it tells nothing of what the system holds, and counts each error.
//! What a real socket does beyond that is trusted, and tested over the loopback alone. A socket that is read or written
//! waits at most half a minute for its peer. Start: `src/conn.rt`.
#![tactic(auto)]

mod conn;
mod connect;
mod listen;
#[cfg(test)]
mod tests;

pub use conn::TcpConn;
pub use connect::TcpConnect;
pub use listen::TcpListen;
