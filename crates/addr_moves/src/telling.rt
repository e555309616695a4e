// The moves of an update as they are told, and the numbers of the entries that move.
ghost use Rattle.std.specs.Prelude.{◌≡◌, ◌<◌, ◌^◌, length, IfOk, OnOk, List};
ghost use Rattle.addr_locate.specs.Rows.{Rows};
ghost use Rattle.addr_pack.specs.declared.bundles.Plan.{Plan as PlanOf};
ghost use Rattle.addr_release.specs.Opened.{Opened};
ghost use Rattle.addr_state.specs.declared.model.State.{State as StateOf};
ghost use Rattle.addr_moves.specs.Fates.{AreFates, AreMoves, comparing};
ghost use Rattle.addr_moves.specs.within.Told.{ListsMoved, TellsMoves, with_move, with_moved};

use crate::entries::guid_of;
use crate::fate::Fate;
use addr_base::{Guid, Items, NoMemory};
use addr_project::Project;
use addr_update::Move;
use std::alloc::Global;

/// Adds the move of an entry that moves.
fn add_move(moves: &mut Items<Move>, fate: Fate, guid: Guid) -> Result<(), NoMemory>
    ensures { OnOk result (moves.new ≡ with_move fate guid moves.old) }
{
    match fate {
        Fate::Free => Ok(()),
        Fate::Kept(_) => Ok(()),
        Fate::Moves(why) => {
            moves.push(Move { guid, why })?;
            Ok(())
        }
    }
}

/// The moves of all entries that move, in the order of the project.
pub fn moves_of(alloc: Global, project: &Project, fates: &[Fate]) -> Result<Items<Move>, NoMemory>
    requires many { length fates.now ≡ length project.now.entries }
    ensures { IfOk result (λ moves. (s : StateOf) (was : List Opened) (r : Rows) (now : PlanOf)
        → AreFates (comparing s was r project.now now) fates.now → AreMoves (comparing s was r project.now now) moves) }
{
    let mut moves = Items::new(alloc);
    for x in 0..fates.len() {
        add_move(&mut moves, fates[x], guid_of(project, x))?;
    }
    Ok(moves)
}

fn add_moved(moved: &mut Items<u32>, fate: Fate, x: u32) -> Result<(), NoMemory>
    ensures { OnOk result (moved.new ≡ with_moved fate x moved.old) }
{
    match fate {
        Fate::Free => Ok(()),
        Fate::Kept(_) => Ok(()),
        Fate::Moves(_) => {
            moved.push(x)?;
            Ok(())
        }
    }
}

/// The numbers of the entries that move, ascending.
pub(crate) fn moved_of(alloc: Global, fates: &[Fate]) -> Result<Items<u32>, NoMemory>
    requires few { length fates.now < 2 ^ 32 }
    ensures { IfOk result (ListsMoved fates.now (length fates.now)) }
{
    let mut moved = Items::new(alloc);
    for x in 0..fates.len() {
        add_moved(&mut moved, fates[x], x as u32)?;
    }
    Ok(moved)
}
