// Objects whose GUIDs ascend strictly, so that one of them is found by halving.
ghost use Rattle.addr_cab.specs.Searches.{Ascend};

use crate::object::ObjectRow;

#[derive(Clone, Copy)]
pub struct Ascending<'a> {
    pub rows: &'a [ObjectRow],
    ghost ascend: { Ascend (λ o. o.guid.0) rows.now },
}
