// Why bytes are no document of a catalogue: the first fault.
ghost use Rattle.std.specs.Prelude.{◌≡◌};
ghost use Rattle.addr_catalog_json.specs.declared.error.DocErr.TheVariants as faults;

use addr_base::NoMemory;

/// The first fault, or that memory was refused.
#[derive(Clone, Copy, Debug, PartialEq, Eq)]
pub enum DocErr {
    /// The bytes are no JSON in UTF-8.
    Json,
    /// A member is absent, of another kind or outside its values. The numbers are those of docs/formats/catalogue.md.
    Member { which: u8 },
    NoMemory,
}

impl From<NoMemory> for DocErr {
    ghost from_gives = { λ _ e. e ≡ faults.NoMemory };

    fn from(_: NoMemory) -> Self {
        DocErr::NoMemory
    }
}
