// A file by its whole depot name and its bytes, as a depot tells them.
use crate::items::Items;
use crate::text::Text;

/// A file that a depot's read gives has fewer bytes than this.
pub(crate) const MAX_FILE: usize = 1 << 32;

/// A named byte string.
#[derive(Drop)]
pub struct MemFile {
    /// The whole depot name, or an internal id; its parts stand between `/`.
    pub name: Text,
    pub bytes: Items<u8>,
}
