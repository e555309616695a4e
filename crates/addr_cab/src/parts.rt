// The parts of a table that were read, with the place of the data where the objects end, and what is left.
use crate::cursor::Cursor;
use crate::object::ObjectRow;
use addr_base::Digest;

#[derive(Drop)]
pub struct Parts<'a> {
    pub outside: Vec<Digest>,
    pub rows: Vec<ObjectRow>,
    pub end: u64,
    pub rest: Cursor<'a>,
}
