// Laws of placements, for the crates that stand on them. Nothing runs.
ghost use Rattle.addr_pack.specs.SameBundle.{Same};
ghost use Rattle.addr_pack.specs.Laws.{IsEquivalence, GroupsApart, NamesTell, NoneTwice, OnePlacement, FewBundles, GroupNames, BeginningsTell, ShortNames, DigitsFollow};

use addr_project::Project;

/// What holds of every project: sharing a bundle is an equivalence, names tell bundles apart, no entry stands in two bundles
/// of a placement, and there is one placement.
pub fn placement_laws(project: &Project)
    ensures equivalence { IsEquivalence (Same project.now) }
    ensures groups { GroupsApart project.now }
    ensures names { NamesTell project.now }
    ensures entries { NoneTwice project.now }
    ensures unique { OnePlacement project.now }
{
    project.kept();
}

/// What the names of every placement are like: they begin as those of their group, which tells groups apart, none is that of
/// the moved entries' bundle, and they are as long as they may be; there are few; and their digests tell them apart where
/// these differ.
pub fn name_laws(project: &Project)
    ensures few { FewBundles project.now }
    ensures begin { GroupNames project.now }
    ensures tell { BeginningsTell project.now }
    ensures short { ShortNames project.now }
    ensures digits { DigitsFollow project.now }
{
    project.kept();
}
