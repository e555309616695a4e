// The parts of a project file, and the counts that have a greatest value. The last four are measured by the crates that
// plan and build; they stand here so that every refusal names its limit by one type.

ghost use Rattle.std.specs.Prelude.{◌≡◌};
ghost use Rattle.addr_project.specs.Limits.{most};
ghost use Rattle.addr_project.specs.Printed.{limit_text, part_text};

use std::fmt;

/// A table of the project file; `Project` is the file's top.
#[derive(Clone, Copy, Debug, PartialEq, Eq)]
pub enum Part {
    Project,
    Profile,
    Variable,
    Group,
    Asset,
    Entry,
}

impl Part {
    /// The word by which programs print the table.
    pub fn text(&self) -> &'static str
        ensures { result.now ≡ part_text self.now }
    {
        match self {
            Part::Project => "project",
            Part::Profile => "profile",
            Part::Variable => "variable",
            Part::Group => "group",
            Part::Asset => "asset",
            Part::Entry => "entry",
        }
    }
}

impl fmt::Display for Part {
    ghost use Rattle.std.specs.Prelude.{Some};
    ghost use Rattle.addr_project.specs.Printed.{part_text};

    ghost output = { λ part. Some (part_text part) };

    fn fmt<W: fmt::Write>(&self, f: &mut fmt::Formatter<W>) -> fmt::Result {
        f.write_str(self.text())
    }
}

/// What is counted against a greatest value.
#[derive(Clone, Copy, Debug, PartialEq, Eq)]
pub enum Limit {
    Variables,
    Groups,
    Assets,
    Entries,
    /// The different labels of one entry.
    Labels,
    /// The references of one asset, with repeats.
    Refs,
    /// The references of all assets, with repeats.
    AllRefs,
    /// The bytes of one expanded text.
    Expanded,
    /// The bytes of one asset's file.
    AssetBytes,
    /// The bytes of all asset files.
    AllBytes,
    /// The bytes of one bundle's name.
    BundleName,
    /// The members of all bundles.
    Members,
    /// The dependencies of all bundles, closed, each bundle among its own.
    Deps,
    /// The bytes of all built files.
    BundleBytes,
}

impl Limit {
    /// The most that is allowed; one more is refused. Texts, files and names are counted in bytes.
    pub fn most(self) -> u64
        ensures { result ≡ most self }
    {
        match self {
            Limit::Variables => 64,
            Limit::Groups => 1_024,
            Limit::Assets => 65_536,
            Limit::Entries => 65_536,
            Limit::Labels => 32,
            Limit::Refs => 1_024,
            Limit::AllRefs => 1_000_000,
            Limit::Expanded => 1_024,
            Limit::AssetBytes => 67_108_864,
            Limit::AllBytes => 268_435_456,
            Limit::BundleName => 200,
            Limit::Members => 4_000_000,
            Limit::Deps => 4_000_000,
            Limit::BundleBytes => 1_073_741_824,
        }
    }

    /// The word by which programs print the limit.
    pub fn text(&self) -> &'static str
        ensures { result.now ≡ limit_text self.now }
    {
        match self {
            Limit::Variables => "variables",
            Limit::Groups => "groups",
            Limit::Assets => "assets",
            Limit::Entries => "entries",
            Limit::Labels => "labels",
            Limit::Refs => "refs",
            Limit::AllRefs => "all-refs",
            Limit::Expanded => "expanded",
            Limit::AssetBytes => "asset-bytes",
            Limit::AllBytes => "all-bytes",
            Limit::BundleName => "bundle-name",
            Limit::Members => "members",
            Limit::Deps => "deps",
            Limit::BundleBytes => "bundle-bytes",
        }
    }
}

impl fmt::Display for Limit {
    ghost use Rattle.std.specs.Prelude.{Some};
    ghost use Rattle.addr_project.specs.Printed.{limit_text};

    ghost output = { λ limit. Some (limit_text limit) };

    fn fmt<W: fmt::Write>(&self, f: &mut fmt::Formatter<W>) -> fmt::Result {
        f.write_str(self.text())
    }
}
