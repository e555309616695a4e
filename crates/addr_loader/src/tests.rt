//! One thread with two passes of a session.
ghost use Rattle.std.specs.Prelude.{◌≡◌, IfOk, length};

use crate::Session;
use addr_base::Items;
use addr_core::{Ask, Core};
use addr_locate::{Kind, Merge, read_rows};
use std::alloc::Global;
use std::test::Fail;

const ROWS: &[u8] =
    b"addr-rows 1\nbundle A 100 00000000000000000000000000000000 A local/A\nasset 00000000000000000000000000000001 Mesh 0 tree\n";

fn ask(alloc: Global, core: &Core<addr_cab::Cab>) -> Result<Ask, Fail>
    ensures { IfOk result (λ ask. length ask.keys ≡ 1) }
{
    let mut keys = Items::new(alloc);
    keys.push(core.locator().key_no("tree"))?;
    Ok(Ask {
        keys,
        mode: Merge::UseFirst,
        kind: Kind::Any,
        all: false,
    })
}

#[test]
fn two_passes_meet_with_a_load_each(rt: HostRuntime) -> Result<(), Fail> {
    let alloc = rt.alloc();
    let core = Core::open(alloc, read_rows(alloc, ROWS)?, 100)?;
    let one = ask(alloc, &core)?;
    let other = ask(alloc, &core)?;
    let Ok((session, pass)) = Session::open(alloc, core) else {
        return Err(Fail::from("open"));
    };
    let (mut first, mut second) = session.split(pass, 1).unwrap();
    assert!(rt; second.number() == 1 && second.spare() == 0);
    assert!(rt; session.load(&rt, &mut first, one).is_ok());
    assert!(rt; session.glance(&mut second) == 1);
    assert!(rt; session.load(&rt, &mut second, other).is_ok());
    let mut both = session.meet(first, second);
    assert!(rt; both.number() == 0 && both.length() == 2);
    assert!(rt; session.glance(&mut both) == 2);
    let core = session.finish(&rt, both);
    assert!(rt; core.journal().len() == 2);
    Ok(())
}
