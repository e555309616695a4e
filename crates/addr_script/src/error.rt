// Why bytes are no script.
use addr_base::NoMemory;

/// Why bytes are no script.
#[derive(Clone, Copy, Debug)]
pub enum ScriptErr {
    /// The first line, from 1, that isn't in the grammar at its place, or line 100,001.
    Line(u32),
    NoMemory,
}

impl From<NoMemory> for ScriptErr {
    ghost use Rattle.std.specs.Prelude.{◌≡◌};
    ghost use Rattle.addr_script.specs.declared.error.ScriptErr.TheVariants as errors;

    ghost from_gives = { λ _ e. e ≡ errors.NoMemory };

    fn from(_: NoMemory) -> Self {
        ScriptErr::NoMemory
    }
}
