// What `inspect` prints: a line for the bundle, one for each node, and one for each object of the asset table.
ghost use Rattle.std.specs.Prelude.{◌≡◌, ◌++◌, ◌∷◌, IfOk, OnOk, string_bytes};
ghost use Rattle.std.specs.List.{flat_map};
ghost use Rattle.addr_texts.specs.InspectText.{contents_text, inspect_text, node_line, object_line, ref_text, refs_text};

use addr_base::{Home, NoMemory, RefTo, Text, token};
use addr_cab::{Cab, CabErr, ObjectRow};
use addr_unityfs::{Bundle, NodePlace};
use std::alloc::Global;
use std::fmt;
use std::fmt::Write;

/// The text of a bundle file, and of its asset table or why it has none.
#[tactic(auto, unfolding(crate::specs::InspectText::inspect_text))]
pub fn inspect_text(
    alloc: Global,
    bundle: &Bundle,
    cab: &Result<Cab, CabErr>,
) -> Result<Text, NoMemory>
    ensures { IfOk result (λ text. text ≡ inspect_text bundle.now cab.now) }
{
    let mut text = String::new(alloc);
    let version = bundle.version;
    let count = bundle.nodes.len();
    writeln!(text, "bundle {version} {count}")?;
    put_nodes(alloc, &mut text, bundle.nodes.as_slice())?;
    put_contents(&mut text, cab)?;
    Ok(Text::from_string(text))
}

fn put_nodes(alloc: Global, text: &mut String, nodes: &[NodePlace]) -> Result<(), NoMemory>
    ensures { OnOk result (string_bytes text.new ≡ string_bytes text.old ++ flat_map node_line nodes.now) }
{
    for node in nodes {
        put_node(alloc, text, node)?;
    }
    Ok(())
}

fn put_node(alloc: Global, text: &mut String, node: &NodePlace) -> Result<(), NoMemory>
    ensures { OnOk result (string_bytes text.new ≡ string_bytes text.old ++ node_line node.now) }
{
    let token = token(alloc, node.path.as_str())?;
    let path = token.as_str();
    let offset = node.offset;
    let size = node.size;
    writeln!(text, "node {path} {offset} {size}")?;
    Ok(())
}

fn put_contents(text: &mut String, cab: &Result<Cab, CabErr>) -> Result<(), NoMemory>
    ensures { OnOk result (string_bytes text.new ≡ string_bytes text.old ++ contents_text cab.now) }
{
    match cab {
        Ok(cab) => put_objects(text, cab.objects()),
        Err(fault) => {
            let number = fault.number().unwrap_or(0);
            writeln!(text, "opaque {number}")?;
            Ok(())
        }
    }
}

fn put_objects(text: &mut String, objects: &[ObjectRow]) -> Result<(), NoMemory>
    ensures { OnOk result (string_bytes text.new ≡ string_bytes text.old ++ flat_map object_line objects.now) }
{
    for object in objects {
        put_object(text, object)?;
    }
    Ok(())
}

fn put_object(text: &mut String, object: &ObjectRow) -> Result<(), NoMemory>
    ensures { OnOk result (string_bytes text.new ≡ string_bytes text.old ++ object_line object.now) }
{
    let guid = object.guid;
    let size = object.size;
    write!(text, "object {guid} {size} ")?;
    put_refs(text, object.refs.as_slice())?;
    writeln!(text)?;
    Ok(())
}

fn put_refs(text: &mut String, refs: &[RefTo]) -> Result<(), NoMemory>
    ensures { OnOk result (string_bytes text.new ≡ string_bytes text.old ++ refs_text refs.now) }
{
    match refs {
        [] => {
            text.push('-')?;
            Ok(())
        }
        [first, rest @ ..] => {
            let first = RefText(*first);
            write!(text, "{first}")?;
            put_more_refs(text, rest)
        }
    }
}

fn put_more_refs(text: &mut String, refs: &[RefTo]) -> Result<(), NoMemory>
    ensures { OnOk result
        (string_bytes text.new ≡ string_bytes text.old ++ flat_map (λ more. 44 ∷ ref_text more) refs.now) }
{
    for more in refs {
        let more = RefText(*more);
        write!(text, ",{more}")?;
    }
    Ok(())
}

/// A reference: the GUID and where it leads.
#[derive(Clone, Copy)]
struct RefText(RefTo);

impl fmt::Display for RefText {
    ghost use Rattle.std.specs.Prelude.{Some};
    ghost use Rattle.addr_texts.specs.InspectText.{ref_text};

    ghost output = { λ t. Some (ref_text t.0) };

    fn fmt<W: fmt::Write>(&self, f: &mut fmt::Formatter<W>) -> fmt::Result {
        let guid = self.0.guid;
        match self.0.home {
            Home::Own => write!(f, "{guid}@own"),
            Home::Other(name) => write!(f, "{guid}@{name}"),
        }
    }
}
