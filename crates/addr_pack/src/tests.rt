// Worked examples from outside: the bundles of some projects, with the numbers of their entries, and a name that is too long.
use crate::{Plan, PlanErr, plan};
use addr_base::{Depot, MemDepot};
use addr_project::Project;
use std::fmt::Write;
use std::process::Abort;
use std::test::Fail;

/// One group of each mode, and entries in each, as their assets come.
const THREE_MODES: &str = "\
[[group]]\nname = 'Core'\nfixed = true\n\
[[group]]\nname = 'Levels'\nmode = 'separate'\nremote = true\n\
[[group]]\nname = 'Skins'\nmode = 'label'\nremote = true\n\
[[asset]]\nguid = '00000000000000000000000000000001'\ntype = 'T'\nfile = 'a'\n\
[[asset]]\nguid = '00000000000000000000000000000002'\ntype = 'T'\nfile = 'a'\n\
[[asset]]\nguid = '00000000000000000000000000000003'\ntype = 'T'\nfile = 'a'\n\
[[asset]]\nguid = '00000000000000000000000000000004'\ntype = 'T'\nfile = 'a'\n\
[[asset]]\nguid = '00000000000000000000000000000005'\ntype = 'T'\nfile = 'a'\n\
[[asset]]\nguid = '00000000000000000000000000000006'\ntype = 'T'\nfile = 'a'\n\
[[asset]]\nguid = '0000000000000000000000000000000c'\ntype = 'T'\nfile = 'a'\n\
[[entry]]\nguid = '00000000000000000000000000000001'\ngroup = 'Core'\naddress = 'hero'\nlabels = ['start']\n\
[[entry]]\nguid = '00000000000000000000000000000002'\ngroup = 'Core'\naddress = 'ui'\n\
[[entry]]\nguid = '00000000000000000000000000000003'\ngroup = 'Levels'\naddress = 'level1'\nlabels = ['start']\n\
[[entry]]\nguid = '00000000000000000000000000000004'\ngroup = 'Levels'\naddress = 'level2'\n\
[[entry]]\nguid = '00000000000000000000000000000005'\ngroup = 'Skins'\naddress = 'skin_red'\nlabels = ['red']\n\
[[entry]]\nguid = '00000000000000000000000000000006'\ngroup = 'Skins'\naddress = 'skin_blue'\nlabels = ['red', 'blue']\n\
[[entry]]\nguid = '0000000000000000000000000000000c'\ngroup = 'Skins'\naddress = 'skin_old'\nlabels = ['red']\n";

/// The label sets {a}, {a, b}, {b, a} and {} in one group.
const LABEL_SETS: &str = "\
[[group]]\nname = 'S'\nmode = 'label'\n\
[[asset]]\nguid = '00000000000000000000000000000001'\ntype = 'T'\nfile = 'a'\n\
[[asset]]\nguid = '00000000000000000000000000000002'\ntype = 'T'\nfile = 'a'\n\
[[asset]]\nguid = '00000000000000000000000000000003'\ntype = 'T'\nfile = 'a'\n\
[[asset]]\nguid = '00000000000000000000000000000004'\ntype = 'T'\nfile = 'a'\n\
[[entry]]\nguid = '00000000000000000000000000000001'\ngroup = 'S'\naddress = 'w'\nlabels = ['a']\n\
[[entry]]\nguid = '00000000000000000000000000000002'\ngroup = 'S'\naddress = 'x'\nlabels = ['a', 'b']\n\
[[entry]]\nguid = '00000000000000000000000000000003'\ngroup = 'S'\naddress = 'y'\nlabels = ['b', 'a']\n\
[[entry]]\nguid = '00000000000000000000000000000004'\ngroup = 'S'\naddress = 'z'\n";

/// Two groups, whose names stand in the other order than their bundles do.
const TWO_GROUPS: &str = "\
[[group]]\nname = 'Y'\n\
[[group]]\nname = 'X'\n\
[[asset]]\nguid = '00000000000000000000000000000001'\ntype = 'T'\nfile = 'a'\n\
[[asset]]\nguid = '00000000000000000000000000000002'\ntype = 'T'\nfile = 'a'\n\
[[entry]]\nguid = '00000000000000000000000000000002'\ngroup = 'Y'\naddress = 'y'\n\
[[entry]]\nguid = '00000000000000000000000000000001'\ngroup = 'X'\naddress = 'x'\n";

/// A group whose name has 200 letters, and an entry before the one that stands in it.
const LONG_NAME: &str = "\
[[group]]\nname = 'S'\n\
[[group]]\nname = 'aaaaaaaaaaaaaaaaaaaaaaaaaaaaaaaaaaaaaaaaaaaaaaaaaaaaaaaaaaaaaaaaaaaaaaaaaaaaaaaaaaaaaaaaaaaaaaaaaaaaaaaaaaaaaaaaaaaaaaaaaaaaaaaaaaaaaaaaaaaaaaaaaaaaaaaaaaaaaaaaaaaaaaaaaaaaaaaaaaaaaaaaaaaaaaaaaaaaaaaa'\n\
[[asset]]\nguid = '00000000000000000000000000000001'\ntype = 'T'\nfile = 'a'\n\
[[asset]]\nguid = '00000000000000000000000000000002'\ntype = 'T'\nfile = 'a'\n\
[[entry]]\nguid = '00000000000000000000000000000001'\ngroup = 'S'\naddress = 'x'\n\
[[entry]]\nguid = '00000000000000000000000000000002'\ngroup = 'aaaaaaaaaaaaaaaaaaaaaaaaaaaaaaaaaaaaaaaaaaaaaaaaaaaaaaaaaaaaaaaaaaaaaaaaaaaaaaaaaaaaaaaaaaaaaaaaaaaaaaaaaaaaaaaaaaaaaaaaaaaaaaaaaaaaaaaaaaaaaaaaaaaaaaaaaaaaaaaaaaaaaaaaaaaaaaaaaaaaaaaaaaaaaaaaaaaaaaaa'\naddress = 'y'\n";

fn plan_of(rt: &(impl AllocGlobal + Abort), text: &str) -> Result<Plan, PlanErr> {
    let alloc = rt.alloc();
    let mut depot = MemDepot::new(Vec::new(alloc), Vec::new(alloc));
    let project_file = depot.put(alloc, "F/project.toml", text.as_bytes());
    let asset_file = depot.put(alloc, "F/a", b"A");
    assert!(rt; project_file.is_ok() && asset_file.is_ok(), "memory");
    match Project::read(alloc, &mut depot, "F") {
        Ok(project) => plan(alloc, &project),
        Err(fault) => {
            assert!(rt; false, "{fault:?}");
            Err(PlanErr::NoMemory)
        }
    }
}

/// Plans a project, and compares the bundles' names, groups and entries.
fn plans(rt: &(impl AllocGlobal + Abort), text: &str, want: &[(&str, u32, &[u32])]) {
    match plan_of(rt, text) {
        Ok(plan) => {
            assert!(rt; plan.bundles.len() == want.len(), "{plan:?}");
            for (bundle, (name, group, entries)) in plan.bundles.as_slice().iter().zip(want) {
                assert_eq!(rt; bundle.name.as_str(), *name);
                assert_eq!(rt; bundle.group, *group);
                assert_eq!(rt; bundle.entries.as_slice(), *entries);
            }
        }
        Err(refusal) => assert!(rt; false, "{refusal:?}"),
    }
}

#[test]
fn names_bundles_by_mode(rt: HostRuntime) {
    plans(
        &rt,
        THREE_MODES,
        &[
            ("Core_assets_all", 0, &[0, 1]),
            ("Levels_assets_00000000000000000000000000000003", 1, &[2]),
            ("Levels_assets_00000000000000000000000000000004", 1, &[3]),
            ("Skins_labels_blue_red", 2, &[5]),
            ("Skins_labels_red", 2, &[4, 6]),
        ],
    );
}

#[test]
fn one_bundle_for_each_set_of_labels(rt: HostRuntime) {
    plans(
        &rt,
        LABEL_SETS,
        &[
            ("S_labels", 0, &[3]),
            ("S_labels_a", 0, &[0]),
            ("S_labels_a_b", 0, &[1, 2]),
        ],
    );
}

#[test]
fn bundles_come_in_order_of_names(rt: HostRuntime) {
    plans(
        &rt,
        TWO_GROUPS,
        &[("X_assets_all", 1, &[1]), ("Y_assets_all", 0, &[0])],
    );
    plans(&rt, "", &[]);
}

// A want of memory that only a large project meets would pass every clause.
#[test]
fn many_entries_are_planned(rt: HostRuntime) -> Result<(), Fail> {
    let mut text = String::from_str(rt.alloc(), "[[group]]\nname = 'G'\nmode = 'separate'\n")?;
    for n in 1_000..2_100 {
        write!(
            text,
            "[[asset]]\nguid = '0000000000000000000000000000{n}'\ntype = 'T'\nfile = 'a'\n"
        )?;
        write!(
            text,
            "[[entry]]\nguid = '0000000000000000000000000000{n}'\ngroup = 'G'\naddress = 'x'\n"
        )?;
    }
    match plan_of(&rt, text.as_str()) {
        Ok(plan) => assert_eq!(rt; plan.bundles.len(), 1_100),
        Err(refusal) => assert!(rt; false, "{refusal:?}"),
    }
    Ok(())
}

#[test]
fn long_name_is_refused(rt: HostRuntime) {
    match plan_of(&rt, LONG_NAME) {
        Ok(plan) => assert!(rt; false, "{plan:?}"),
        Err(refusal) => assert_eq!(rt;
            refusal,
            PlanErr::NameTooLong {
                row: 1,
                length: 211
            }
        ),
    }
}
