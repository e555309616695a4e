// Laws of checking. Nothing runs.
ghost use Rattle.std.specs.Prelude.{ℕ, List};
ghost use Rattle.addr_base.specs.declared.files.MemFile.{MemFile as File};
ghost use Rattle.addr_check.specs.Laws.{HaveOneAnswer};
ghost use Rattle.addr_resolve.specs.Laws.{AreFiles};

use addr_held::held_is_one;
use addr_project::folder_has_one_answer;

/// Files of bytes, each as short as a machine can hold it, have one answer: one list of moves, or one first cause of a refusal. Want
/// of memory and a fault of the depot are answers that they don't decide.
pub fn check_is_one()
    ensures { (files : List File) (folder : List ℕ) → AreFiles files → HaveOneAnswer files folder }
{
    folder_has_one_answer();
    held_is_one();
}
