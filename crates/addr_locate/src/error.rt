// Why bytes were not read as rows.
use addr_base::NoMemory;

#[derive(Clone, Copy, Debug, PartialEq, Eq, Drop)]
pub enum RowsErr {
    /// The first line that isn't in the form, counted from 1; 1 too where there is no line.
    Line(u32),
    NoMemory,
}

impl From<NoMemory> for RowsErr {
    ghost use Rattle.std.specs.Prelude.{◌≡◌};
    ghost use Rattle.addr_locate.specs.declared.error.RowsErr.TheVariants as errors;

    ghost from_gives = { λ _ e. e ≡ errors.NoMemory };

    fn from(_: NoMemory) -> Self {
        RowsErr::NoMemory
    }
}
