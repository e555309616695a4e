// A catalogue in memory.
use addr_base::Digest;
use addr_locate::Locator;

/// The rows of a catalogue, and the digest of the content state that it was built with, if it names one.
#[derive(Debug, Drop)]
pub struct Catalogue {
    pub locator: Locator,
    pub state: Option<Digest>,
}
