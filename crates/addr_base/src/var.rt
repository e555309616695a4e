// A named text: a profile variable, whose value stands wherever its name stands in brackets or braces.
use crate::text::Text;

/// A variable of a profile.
#[derive(Drop)]
pub struct Var {
    pub name: Text,
    pub value: Text,
}
