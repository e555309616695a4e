//! Conversations over a net as their callers see them: a connection, what accepts connections, and what makes them.
//!
//! Promise: the clauses of `Conn`, `Listen` and `Connect`, each over one record that says what the value is now; the fakes
//! in memory tell everything, and fail at the calls that they are told to fail at. Units: sizes in bytes.
//! Left out: sockets (`addr_net`). Start: `specs/Connections.antt`, then `src/conn.rt`.
#![tactic(auto)]

mod conn;
mod connect;
mod copying;
mod listen;
mod mem_conn;
mod mem_connect;
mod mem_listen;

pub use conn::Conn;
pub use connect::Connect;
pub use listen::Listen;
pub use mem_conn::MemConn;
pub use mem_connect::MemConnect;
pub use mem_listen::MemListen;
