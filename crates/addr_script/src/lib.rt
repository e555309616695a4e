//! Scripts of the loading machine: the lines that are read, and the texts of the replies (docs/formats/scripts.md).
//!
//! Promise: `read_head`, and then `next_command` line by line, find the one script that bytes are, or their first bad line
//! (`specs/Scripts.antt`, `specs/ScriptParts.antt`); a reply is printed as `specs/Replies.antt` says.
//! Units: lines count from 1. Start: `specs/Commands.antt`, then `src/script.rt`.
#![tactic(auto)]

mod command;
mod error;
mod keys;
mod laws;
mod loads;
mod parser;
mod reply;
mod script;
mod set_line;
mod shown;
mod words;

pub use command::{Command, Grammar};
pub use error::ScriptErr;
pub use keys::key_list;
pub use laws::script_laws;
pub use parser::parse_command;
pub use reply::{CauseText, Reply};
pub use script::{ScriptHead, next_command, read_head};
pub use set_line::parse_set;
pub use shown::{content, items_text};
