// What the words of a command line ask for.
ghost use Rattle.std.specs.Prelude.{MatchOption};
ghost use Rattle.addr_cli.specs.Requests.{command_of};
ghost use Rattle.addr_cli.specs.Words.{AsksFor, IsCommandLine};

use addr_base::Text;
use addr_fields::is_same;

/// A command with the names of its files.
#[derive(Clone, Copy)]
pub enum Request<'a> {
    Simulate { rows: &'a Text, script: &'a Text },
    ListRows { file: &'a Text },
    Inspect { file: &'a Text },
    Plan { folder: &'a Text },
}

/// What the words ask for, where they are those of a command.
pub fn request_of(words: &[Text]) -> Option<Request<'_>>
    ensures { MatchOption result (IsCommandLine words.now → ⊥) (λ request. AsksFor words.now (command_of request)) }
{
    match words {
        [command, rows, script] => {
            if is_same(command.as_bytes(), b"simulate") {
                Some(Request::Simulate { rows, script })
            } else {
                None
            }
        }
        [command, file] => {
            if is_same(command.as_bytes(), b"rows") {
                Some(Request::ListRows { file })
            } else if is_same(command.as_bytes(), b"inspect") {
                Some(Request::Inspect { file })
            } else if is_same(command.as_bytes(), b"plan") {
                Some(Request::Plan { folder: file })
            } else {
                None
            }
        }
        _ => None,
    }
}
