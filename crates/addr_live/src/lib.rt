//! Scripts beside workers: what `load` prints, and what its fetchers do.
//!
//! Promise: a script is played on a machine of its own while workers fetch for it, and the text is that of one history: each
//! call of a command is answered as the one-thread machine answers at its place, each reply stands with the length of the history
//! that the script had then seen, and the journal behind them is the last history, which has the script's changes alone
//! (`specs/LiveText.antt`, `specs/Steps.antt`); each fetcher comes back by a chain of its own fetches (`specs/Whole.antt`).
//! Units: places are numbers of events; lines end with one LF. Left out: files and words (`addr_cli`), and that a wait ends.
//! Start: `specs/LiveText.antt`, then `src/live.rt`.
#![tactic(auto)]

mod hands;
mod journal;
mod live;
mod order;
mod playing;
mod reading;
mod running;
mod scheme_fetch;
mod script;
#[cfg(test)]
mod tests;
mod told;

pub use live::{Beside, play_beside};
pub use order::Order;
pub use reading::{Prepared, read_orders};
pub use scheme_fetch::SchemeFetch;
