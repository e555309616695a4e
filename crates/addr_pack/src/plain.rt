// Which bytes names have. Contracts see a text as numbers, so that these are bytes is said of each text by walking over it.
ghost use Rattle.hex.specs.Hex.{IsBytes};
ghost use Rattle.addr_walks.specs.Places.{EachAt};
ghost use Rattle.addr_pack.specs.Laws.{PlainNames};

use addr_base::Text;
use addr_project::{Entry, Group, Project};

/// Names of every placement are of letters, digits, `-`, `~` and `_`. Walks over groups and labels, and takes no memory.
pub fn names_are_plain(project: &Project)
    ensures { PlainNames project.now }
{
    project.kept();
    groups_are_bytes(project.groups());
    entries_are_bytes(project.entries());
}

fn groups_are_bytes(groups: &[Group])
    ensures { EachAt (λ i group. IsBytes group.name) groups.now }
{
    for (i, group) in groups.iter().enumerate() {
        let _ = i;
        text_is_bytes(&group.name);
    }
}

fn entries_are_bytes(entries: &[Entry])
    ensures { EachAt (λ i entry. EachAt (λ k label. IsBytes label) entry.labels) entries.now }
{
    for (i, entry) in entries.iter().enumerate() {
        let _ = i;
        labels_are_bytes(entry.labels.as_slice());
    }
}

fn labels_are_bytes(labels: &[Text])
    ensures { EachAt (λ k label. IsBytes label) labels.now }
{
    for (i, label) in labels.iter().enumerate() {
        let _ = i;
        text_is_bytes(label);
    }
}

fn text_is_bytes(text: &Text)
    ensures { IsBytes text.now }
{
    are_bytes(text.as_bytes());
}

fn are_bytes(bytes: &[u8])
    ensures { IsBytes bytes.now }
{
    let _length = bytes.len();
}
