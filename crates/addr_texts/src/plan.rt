// What `plan` prints: for each bundle its name, its entries, its copies and its dependencies. Which assets are entries is
// marked once, so that no member is compared with each entry.
ghost use Rattle.std.specs.Prelude.{◌≡◌, ◌<◌, ◌++◌, length, filter, drop, IfOk, OnOk, string_bytes};
ghost use Rattle.std.specs.List.{All, flat_map};
ghost use Rattle.addr_pack.specs.Placement.{IsPlaced};
ghost use Rattle.addr_walks.specs.Closure.{IsDeps};
ghost use Rattle.addr_walks.specs.Places.{EachAt};
ghost use Rattle.addr_layout.specs.Layout.{IsLayout};
ghost use Rattle.addr_layout.specs.Needs.{Needs};
ghost use Rattle.addr_texts.specs.Marks.{AreMarks, block_of, is_unmarked};
ghost use Rattle.addr_texts.specs.PlanText.{block_text, copy_line, dep_line, entry_line, PlanText, TellsBlock};

use addr_base::{Items, NoMemory, Text};
use addr_layout::Layout;
use addr_pack::{Plan, PlanBundle};
use addr_project::Project;
use std::alloc::Global;
use std::fmt::Write;

/// Beside each asset whether it is an entry.
fn marks_of(alloc: Global, project: &Project) -> Result<Vec<bool>, NoMemory>
    ensures { IfOk result (λ marks. AreMarks (length project.now.assets) project.now.entries marks.items) }
{
    project.kept();
    let mut marks = vec![in alloc; false; project.assets().len()]?;
    for entry in project.entries() {
        marks[entry.asset as usize] = true;
    }
    Ok(marks)
}

fn is_unmarked(marks: &[bool], n: u32) -> bool
    ensures { result ≡ is_unmarked marks.now n }
{
    match marks.get(n as usize) {
        Some(mark) => !*mark,
        None => true,
    }
}

fn put_entries(text: &mut String, project: &Project, entries: &[u32]) -> Result<(), NoMemory>
    requires { All (λ x. x < length project.now.entries) entries.now }
    ensures { OnOk result
        (string_bytes text.new ≡ string_bytes text.old ++ flat_map (entry_line project.now) entries.now) }
{
    for x in entries {
        put_entry(text, project, *x)?;
    }
    Ok(())
}

fn put_entry(text: &mut String, project: &Project, x: u32) -> Result<(), NoMemory>
    requires { x < length project.now.entries }
    ensures { OnOk result (string_bytes text.new ≡ string_bytes text.old ++ entry_line project.now x) }
{
    project.kept();
    let entry = &project.entries()[x as usize];
    let guid = project.assets()[entry.asset as usize].guid;
    writeln!(text, "entry {guid}")?;
    Ok(())
}

fn put_copies(
    text: &mut String,
    project: &Project,
    marks: &[bool],
    members: &[u32],
) -> Result<(), NoMemory>
    requires { All (λ n. n < length project.now.assets) members.now }
    ensures { OnOk result (string_bytes text.new ≡ string_bytes text.old ++ flat_map (copy_line project.now)
        (filter (is_unmarked marks.now) members.now)) }
{
    for n in members {
        if is_unmarked(marks, *n) {
            put_copy(text, project, *n)?;
        }
    }
    Ok(())
}

fn put_copy(text: &mut String, project: &Project, n: u32) -> Result<(), NoMemory>
    requires { n < length project.now.assets }
    ensures { OnOk result (string_bytes text.new ≡ string_bytes text.old ++ copy_line project.now n) }
{
    let guid = project.assets()[n as usize].guid;
    writeln!(text, "copy {guid}")?;
    Ok(())
}

fn put_deps(text: &mut String, deps: &[u32]) -> Result<(), NoMemory>
    ensures { OnOk result (string_bytes text.new ≡ string_bytes text.old ++ flat_map dep_line deps.now) }
{
    for c in deps {
        writeln!(text, "dep {c}")?;
    }
    Ok(())
}

/// The numbers behind the first one.
fn after_first(numbers: &[u32]) -> &[u32]
    ensures { result.now ≡ drop 1 numbers.now }
{
    if numbers.is_empty() {
        numbers
    } else {
        &numbers[1..]
    }
}

#[tactic(auto, unfolding(crate::specs::PlanText::block_text))]
fn put_block(
    text: &mut String,
    project: &Project,
    marks: &[bool],
    b: usize,
    bundle: &PlanBundle,
    members: &[u32],
    deps: &[u32],
) -> Result<(), NoMemory>
    requires entries { All (λ x. x < length project.now.entries) bundle.now.entries }
    requires members { All (λ n. n < length project.now.assets) members.now }
    ensures { OnOk result (string_bytes text.new ≡ string_bytes text.old ++ block_text project.now b
        (block_of marks.now bundle.now members.now deps.now)) }
{
    let name = bundle.name.as_str();
    writeln!(text, "bundle {b} {name}")?;
    put_entries(text, project, bundle.entries.as_slice())?;
    put_copies(text, project, marks, members)?;
    put_deps(text, after_first(deps))
}

/// The lines of the bundle with a number.
fn put_bundle(
    text: &mut String,
    project: &Project,
    marks: &[bool],
    plan: &Plan,
    layout: &Layout,
    b: usize,
    deps: &[u32],
) -> Result<(), NoMemory>
    requires within { b < length plan.now.bundles }
    requires placed { IsPlaced project.now plan.now }
    requires laid { IsLayout project.now plan.now layout.now }
    requires deps { IsDeps (Needs project.now plan.now) b deps.now }
    requires marks { AreMarks (length project.now.assets) project.now.entries marks.now }
    ensures { OnOk result (TellsBlock project.now plan.now b (string_bytes text.old) (string_bytes text.new)) }
{
    let bundle = &plan.bundles.as_slice()[b];
    let lay = &layout.bundles.as_slice()[b];
    put_block(
        text,
        project,
        marks,
        b,
        bundle,
        lay.members.as_slice(),
        deps,
    )?;
    Ok(())
}

/// The text of a placement with its layout and the dependency list of each bundle.
pub fn plan_text(
    alloc: Global,
    project: &Project,
    plan: &Plan,
    layout: &Layout,
    deps: &[Items<u32>],
) -> Result<Text, NoMemory>
    requires placed { IsPlaced project.now plan.now }
    requires laid { IsLayout project.now plan.now layout.now }
    requires as_many { length deps.now ≡ length plan.now.bundles }
    requires deps { EachAt (IsDeps (Needs project.now plan.now)) deps.now }
    ensures { IfOk result (PlanText project.now plan.now) }
{
    let marks = marks_of(alloc, project)?;
    let mut text = String::new(alloc);
    for b in 0..plan.bundles.len() {
        put_bundle(
            &mut text,
            project,
            &marks,
            plan,
            layout,
            b,
            deps[b].as_slice(),
        )?;
    }
    Ok(Text::from_string(text))
}
