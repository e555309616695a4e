// The machine as the state of a turn lock: its list is the journal, and its fixed part the rows and the limit.
use crate::machine::Core;
use addr_base::{Image, Told};
use addr_history::Event;
use addr_locate::Locator;

impl<I: Image + Drop> Told for Core<I> {
    type Entry = Event;

    type Fixed = (Locator, u32);

    ghost use Rattle.addr_history.specs.Events.{number_of};

    ghost entries = { λ m. m.history };

    ghost fixed = { λ m. (m.rows, m.limit) };

    ghost number = { number_of };

    fn told(&self) -> u64 {
        self.journal().len() as u64
    }
}
