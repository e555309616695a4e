// A release in memory.
use addr_base::Items;
use addr_cab::Cab;
use addr_catalog::Catalogue;
use addr_state::State;

/// A folder's present catalogue, the content state that it names, and the bundles of the state, in its order, with their whole
/// files.
#[derive(Drop)]
pub struct Release {
    pub catalogue: Catalogue,
    pub state: State,
    pub cabs: Items<Cab>,
}
