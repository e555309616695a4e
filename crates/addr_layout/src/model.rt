// A layout, all of it plain data. Its bundles stand in the order of the placement's.
ghost use Rattle.std.specs.Prelude.{◌≡◌, IfOk};
ghost use Rattle.addr_layout.specs.Direct.{direct_lists};

use addr_base::{Items, NoMemory};
use std::alloc::Global;

/// What stands in the bundles of a placement.
#[derive(Debug, Drop)]
pub struct Layout {
    pub bundles: Items<LayBundle>,
}

/// What stands in a bundle. A kept bundle has empty lists, since its file is there.
#[derive(Debug, Drop)]
pub struct LayBundle {
    /// The numbers of assets, in ascending order of their GUIDs.
    pub members: Items<u32>,
    /// For each member the home of each of its references, in their order.
    pub refs: Items<Items<RefHome>>,
    /// The numbers of the bundles needed, ascending.
    pub direct: Items<u32>,
}

/// Where a reference leads.
#[derive(Clone, Copy, Debug, PartialEq, Eq)]
pub enum RefHome {
    /// To the bundle in which it stands.
    Own,
    /// To another bundle, the one with that number.
    Bundle(u32),
}

impl Layout {
    /// Copies for each bundle the list of the bundles that it needs.
    pub fn direct(&self, alloc: Global) -> Result<Items<Items<u32>>, NoMemory>
        ensures { IfOk result (λ direct. direct ≡ direct_lists self.now) }
    {
        let mut direct = Items::new(alloc);
        for lay in self.bundles.as_slice().iter() {
            direct.push(Items::copy_of(alloc, lay.direct.as_slice())?)?;
        }
        Ok(direct)
    }
}
