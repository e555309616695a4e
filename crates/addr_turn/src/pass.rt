//! What a pass tells of itself.
ghost use Rattle.std.specs.Prelude.{◌≡◌, length};
ghost use Rattle.addr_turn.specs.Held.{view};

use crate::lock::Pass;
use addr_base::Told;

impl<S: Told> Pass<S> {
    /// The number of the entries that it records.
    pub fn number(&self) -> u32
        ensures { result ≡ (view self.now).number }
    {
        self.number
    }

    /// How many spare numbers it has.
    pub fn spare(&self) -> u32
        ensures { result ≡ (view self.now).spare }
    {
        self.spare
    }

    /// The length of the history that it has seen.
    pub fn length(&self) -> u64
        ensures { result ≡ length (view self.now).seen }
    {
        self.count
    }
}
