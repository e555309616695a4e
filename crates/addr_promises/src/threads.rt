// Many threads: what is printed of a script beside its workers.
ghost use Rattle.std.specs.Prelude.{ℕ, List};
ghost use Rattle.addr_locate.specs.Rows.{Rows};
ghost use Rattle.addr_history.specs.Legal.{Legal};
ghost use Rattle.addr_history.specs.declared.event.Event.{Event};
ghost use Rattle.addr_script.specs.declared.command.Command.{Command};
ghost use Rattle.addr_live.specs.LiveText.{LiveText};
ghost use Rattle.addr_live.specs.Whole.{PlaysBeside};

use addr_fetch::Fetch;

/// What `load` prints is the text of one legal history: each reply is the one-thread machine's at its place.
pub fn threads_share_one_history<F: Fetch>()
    ensures { (rows : Rows) (limit : ℕ) (commands : List Command) (fetchers back : List F) (fetch came : F) (text : List ℕ)
        → PlaysBeside F.gives rows limit commands fetchers back fetch came text
        → (h : List Event) × Legal rows limit h × LiveText rows limit commands h text }
{}
