// The keys that an object may hold. They are plain data: contracts see texts as the lists of their bytes.
use addr_base::Text;

/// A key of a catalogue.
#[derive(Debug, Drop)]
pub enum Key {
    Text(Text),
    U16(u16),
    U32(u32),
    I32(i32),
    /// A 128-bit hash as ASCII digits; they aren't interpreted.
    Hash(Text),
    /// The identifier of a type in ASCII; it isn't interpreted.
    TypeId(Text),
    /// An object of a class, as a text of JSON that isn't interpreted.
    Json {
        assembly: Text,
        class: Text,
        text: Text,
    },
}
