// Names of files: below the release folder, and in the depot.
ghost use Rattle.std.specs.Prelude.{◌≡◌, IfOk};
ghost use Rattle.addr_project.specs.Reading.{path};
ghost use Rattle.addr_release.specs.Names.{state_file};

use addr_base::{Digest, NoMemory, Text};
use std::alloc::Global;

/// The depot's name of a file below the folder.
pub(crate) fn path_of(alloc: Global, folder: &str, name: &str) -> Result<Text, NoMemory>
    ensures { IfOk result (λ text. text ≡ path folder.now name.now) }
{
    let mut text = String::from_str(alloc, folder)?;
    text.push_str("/")?;
    text.push_str(name)?;
    Ok(Text::from_string(text))
}

/// The name below the folder of the content state that a catalogue names, or of that which one without a digest has.
pub(crate) fn state_file(alloc: Global, named: Option<Digest>) -> Result<Text, NoMemory>
    ensures { IfOk result (λ name. name ≡ state_file named) }
{
    match named {
        Some(digest) => {
            let name = format!(in alloc; "state_{digest}.json")?;
            Ok(Text::from_string(name))
        }
        None => Text::copy_of(alloc, "state_.json"),
    }
}
