// Laws of opening a release. Nothing runs.
ghost use Rattle.std.specs.Prelude.{ℕ, List};
ghost use Rattle.addr_base.specs.declared.files.MemFile.{MemFile as File};
ghost use Rattle.addr_held.specs.Laws.{HasOneAnswer, ShowsRelease};
ghost use Rattle.addr_layout.specs.Laws.{AtMostOne};
ghost use Rattle.addr_resolve.specs.Laws.{AreFiles};

use addr_cab::table_laws;
use addr_unityfs::bundle_laws;

/// Files of bytes, each as short as a machine can hold it, have one answer: one release, or one first thing that is wrong.
pub fn held_is_one()
    ensures answers { (files : List File) (folder : List ℕ) → AreFiles files → HasOneAnswer files folder }
    ensures shows { (files : List File) (folder : List ℕ) → AreFiles files → AtMostOne (ShowsRelease files folder) }
{
    table_laws();
    bundle_laws();
}
