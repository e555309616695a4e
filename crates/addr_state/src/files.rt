// Names of bundle files, as a state tells them.
ghost use Rattle.std.specs.Prelude.{◌≡◌, ◌+◌, IfOk, length};
ghost use Rattle.addr_base.specs.Ids.{Are16Bytes};
ghost use Rattle.addr_state.specs.Files.{file_name, side_file};

use addr_base::{Digest, NoMemory, Text};
use std::alloc::Global;

/// What the type of a digest says; nothing runs.
fn sixteen_bytes(bytes: [u8; 16])
    ensures { Are16Bytes bytes }
{}

/// The name of a bundle's file, which is its key in a catalogue too: the digest is that of the file's bytes.
pub fn file_name(alloc: Global, name: &str, digest: Digest) -> Result<Text, NoMemory>
    ensures text { IfOk result (λ file. file ≡ file_name name.now digest) }
    ensures len { IfOk result (λ file. length file ≡ length name.now + 40) }
{
    sixteen_bytes(digest.0);
    let file = format!(in alloc; "{name}_{digest}.bundle")?;
    Ok(Text::from_string(file))
}

/// The file of a bundle below the release folder, on the side of remote bundles or on that of local ones.
pub fn side_file(alloc: Global, remote: bool, name: &str, digest: Digest) -> Result<Text, NoMemory>
    ensures { IfOk result (λ file. file ≡ side_file remote name.now digest) }
{
    let side = if remote { "remote/" } else { "local/" };
    let file = format!(in alloc; "{side}{name}_{digest}.bundle")?;
    Ok(Text::from_string(file))
}
