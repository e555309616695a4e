// The type of a project. Its fields are private, so that each value keeps what the tests of reading found out.
ghost use Rattle.std.specs.Prelude.{◌≡◌, ◌⊎◌, Ok, Err, IfOk, IfErr, IfSome};
ghost use Rattle.addr_base.specs.Files.{SameStore};
ghost use Rattle.addr_project.specs.Causes.{FaultHasCause};
ghost use Rattle.addr_expansion.specs.Expansion.{expanded};
ghost use Rattle.addr_project.specs.Kept.{IsKept};
ghost use Rattle.addr_project.specs.Reading.{Reads};
ghost use Rattle.addr_expansion.specs.declared.error.ExpandErr.TheVariants as expanding;

use crate::asset_files::read_assets;
use crate::checking::parts_of;
use crate::document::read_tree;
use crate::error::ProjectErr;
use crate::model::{Asset, Entry, Group};
use crate::parts::Parts;
use addr_base::{Depot, Items, Text, Var};
use addr_expansion::ExpandErr;
use std::alloc::Global;
use std::marker::Model;

/// What a project folder stands for.
#[derive(Drop)]
pub struct Project {
    version: Text,
    local: Text,
    remote: Text,
    variables: Items<Var>,
    groups: Items<Group>,
    assets: Items<Asset>,
    entries: Items<Entry>,
}

impl Model for Project {
    ghost use Rattle.addr_project.specs.Model.{Project as Contents};
    ghost use Rattle.addr_project.specs.Kept.{IsKept};

    ghost Value = { Contents };

    ghost view = { λ p. record {
      version = p.version;
      local = p.local;
      remote = p.remote;
      variables = p.variables;
      groups = p.groups;
      assets = p.assets;
      entries = p.entries;
    } };

    ghost invariant = { λ p. IsKept (record {
      version = p.version;
      local = p.local;
      remote = p.remote;
      variables = p.variables;
      groups = p.groups;
      assets = p.assets;
      entries = p.entries;
    }) };
}

impl Project {
    /// Reads the project file of a folder, whose name is given without a `/` at its end, and the files of its assets.
    pub fn read<D: Depot>(alloc: Global, depot: &mut D, folder: &str) -> Result<Project, ProjectErr>
        ensures told { IfSome (D.now depot.old).files (λ files. Reads files folder.now result) }
        ensures same { SameStore (D.now depot.old) (D.now depot.new) }
        ensures cause { FaultHasCause (D.now depot.old).faults (D.now depot.new).faults result }
    {
        let tree = read_tree(alloc, depot, folder)?;
        let parts = match parts_of(alloc, &tree) {
            Ok(parts) => parts,
            Err(fault) => return Err(fault),
        };
        let assets = match read_assets(alloc, depot, folder, parts.assets.as_slice()) {
            Ok(assets) => assets,
            Err(fault) => return Err(fault),
        };
        let Parts {
            version,
            local,
            remote,
            variables,
            groups,
            assets: _,
            entries,
        } = parts;
        Ok(Project {
            version,
            local,
            remote,
            variables,
            groups,
            assets,
            entries,
        })
    }

    /// The version of the player that bundles are built for.
    pub fn version(&self) -> &str
        ensures { result.now ≡ self.now.version }
    {
        self.version.as_str()
    }

    /// The expanded folder of local bundles.
    pub fn local(&self) -> &str
        ensures { result.now ≡ self.now.local }
    {
        self.local.as_str()
    }

    /// The expanded folder of remote bundles.
    pub fn remote(&self) -> &str
        ensures { result.now ≡ self.now.remote }
    {
        self.remote.as_str()
    }

    pub fn variables(&self) -> &[Var]
        ensures { result.now ≡ self.now.variables }
    {
        self.variables.as_slice()
    }

    pub fn groups(&self) -> &[Group]
        ensures { result.now ≡ self.now.groups }
    {
        self.groups.as_slice()
    }

    pub fn assets(&self) -> &[Asset]
        ensures { result.now ≡ self.now.assets }
    {
        self.assets.as_slice()
    }

    pub fn entries(&self) -> &[Entry]
        ensures { result.now ≡ self.now.entries }
    {
        self.entries.as_slice()
    }

    /// What every project keeps, for callers. Nothing runs.
    pub fn kept(&self)
        ensures { IsKept self.now }
    {
        let _ = &self.version;
    }

    /// Replaces each `[name]` by the expanded value of that variable.
    pub fn expand(&self, alloc: Global, text: &str) -> Result<Text, ExpandErr>
        ensures ok { IfOk result (λ t. expanded self.now.variables text.now ≡ Ok t) }
        ensures err { IfErr result (λ e. (e ≡ expanding.NoMemory) ⊎ (expanded self.now.variables text.now ≡ Err e)) }
    {
        let text = addr_expansion::expand(alloc, self.variables.as_slice(), text)?;
        Ok(text)
    }
}
