// What no clause says: worked texts, and that values which double each other end quickly.
use crate::expand;
use addr_base::{Text, Var};
use std::alloc::Global;
use std::test::Fail;

// 64 variables named by their numbers: a first value, and each later one the value before it twice.
fn doubled(alloc: Global, first: &str) -> Result<Vec<Var>, Fail> {
    let mut variables = Vec::new(alloc);
    variables.push(Var {
        name: Text::copy_of(alloc, "0")?,
        value: Text::copy_of(alloc, first)?,
    })?;
    for number in 1..64u32 {
        let before = number - 1;
        variables.push(Var {
            name: Text::from_string(format!(in alloc; "{number}")?),
            value: Text::from_string(format!(in alloc; "[{before}][{before}]")?),
        })?;
    }
    Ok(variables)
}

#[test]
fn values_that_double_each_other(rt: HostRuntime) -> Result<(), Fail> {
    for (first, text, want) in [
        ("x", "a[0]b[3]c", "axbxxxxxxxxc"),
        ("", "<[40]>", "<>"),
        ("x", "[40]", "TooLong(1099511627776)"),
        ("x", "[63][63]", "TooLong(18446744073709551615)"),
        ("[63]", "[0]", "Cycle"),
        ("[64]", "[9]", "BadVariable"),
        ("[", "[9]", "BadVariable"),
    ] {
        let variables = doubled(rt.alloc(), first)?;
        let found = match expand(rt.alloc(), &variables, text) {
            Ok(text) => text.into_string(),
            Err(fault) => format!(in rt.alloc(); "{fault:?}")?,
        };
        assert_eq!(rt; found.as_str(), want);
    }
    Ok(())
}
