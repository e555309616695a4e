// Laws of resolving. Nothing runs.
ghost use Rattle.std.specs.Prelude.{ℕ, List};
ghost use Rattle.addr_base.specs.declared.files.MemFile.{MemFile as File};
ghost use Rattle.addr_layout.specs.Laws.{AtMostOne};
ghost use Rattle.addr_release.specs.Resolve.{Resolve};
ghost use Rattle.addr_resolve.specs.Laws.{AreFiles, HaveOneAnswer};

use addr_cab::table_laws;
use addr_unityfs::bundle_laws;

/// Files show at most one list of rows under a key.
pub fn resolve_is_one()
    ensures { (files : List File) (folder key : List ℕ) → AreFiles files → AtMostOne (Resolve files folder key) }
{
    table_laws();
    bundle_laws();
}

/// Files have one answer under a key: the rows that they show, or the first cause of a refusal. Want of memory and a fault of
/// the depot are answers that they don't decide.
pub fn answer_is_one()
    ensures { (files : List File) (folder key : List ℕ) → AreFiles files → HaveOneAnswer files folder key }
{
    table_laws();
    bundle_laws();
}
