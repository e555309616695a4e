//! Plays a script on the loading machine: what `simulate` prints.
//!
//! Promise: the text is that of the replies to the commands of the script, one line each, each at the history that the commands
//! before it make, or the script's first bad line is answered (`specs/SimText.antt`).
//! Units: lines end with one LF. Left out: files and words (`addr_cli`). Start: `specs/SimText.antt`, then `src/simulator.rt`.
#![tactic(auto)]

mod sim_image;
mod simulator;

pub use sim_image::SimImage;
pub use simulator::{ask_of, named_key, read_all_reply, read_reply, simulate};
