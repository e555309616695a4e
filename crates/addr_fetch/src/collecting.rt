// A taker that keeps every byte.
ghost use Rattle.std.specs.Prelude.{◌≡◌, []};

use crate::pour::Pour;
use addr_base::{Items, NoMemory};
use std::alloc::Global;

/// All bytes that were poured, in order.
#[derive(Drop)]
pub struct Collected {
    bytes: Vec<u8>,
}

impl Collected {
    /// No byte yet, and no memory taken.
    pub fn new(alloc: Global) -> Collected
        ensures { result.bytes.items ≡ [] }
    {
        Collected {
            bytes: Vec::new(alloc),
        }
    }

    /// Gives the bytes, and takes no memory.
    pub fn into_items(self) -> Items<u8>
        ensures { result ≡ self.bytes.items }
    {
        let Collected { bytes } = self;
        Items::from_vec(bytes)
    }
}

impl Pour for Collected {
    ghost use Rattle.std.specs.Prelude.{◌≡◌};

    type Fixed = ();

    ghost took = { λ collected fed. collected.bytes.items ≡ fed };

    ghost fixed = { λ _. tt };

    fn pour(&mut self, piece: &[u8]) -> Result<(), NoMemory> {
        self.bytes.extend_from_slice(piece)?;
        Ok(())
    }
}
