// Who joins the queue where an operation comes, and who leaves it where one goes.
ghost use Rattle.std.specs.Prelude.{◌≡◌, ◌<◌, ◌++◌, ◌∷◌, [], ◌==◌, not, true, false, filter, if◌then◌else◌};
ghost use Rattle.addr_history.specs.Events.{is_in};
ghost use Rattle.addr_locate.specs.Rows.{no_repeats};
ghost use Rattle.addr_queue.specs.Slots.{passes, leaves, is_out, left_each, joined_each};

use crate::queue::Queue;
use crate::slots::{Slot, is_out, leaves};
use addr_base::BundleNo;

/// Those of the bundles leave the queue that are queued with a count of one.
pub fn leave_each(queue: &mut Queue, slots: &[Slot], needs: &[BundleNo])
    requires once { no_repeats needs.now ≡ true }
    requires there { (b : _) → is_in b needs.now ≡ true → passes leaves slots.now b ≡ true
        → is_in b queue.old.bundles ≡ true }
    ensures { queue.new
        ≡ record {
          room = queue.old.room;
          bundles = left_each
              (passes leaves slots.now) needs.now queue.old.bundles;
        } }
{
    for b in needs {
        leave(queue, leaves(slots, *b), *b);
    }
}

fn leave(queue: &mut Queue, leaves: bool, b: BundleNo)
    requires { leaves ≡ true → is_in b queue.old.bundles ≡ true }
    ensures { queue.new ≡ record {
      room = queue.old.room;
      bundles = if leaves then filter
          (λ c. not (c.0 == b.0)) queue.old.bundles else queue.old.bundles;
    } }
{
    if leaves {
        queue.remove(b);
    }
}

/// Those of the bundles join the queue that are absent.
pub fn join_each(queue: &mut Queue, slots: &[Slot], needs: &[BundleNo])
    requires once { no_repeats needs.now ≡ true }
    requires below { (b : _) → is_in b needs.now ≡ true → b.0 < queue.old.room }
    requires new { (b : _) → is_in b needs.now ≡ true → passes is_out slots.now b ≡ true
        → is_in b queue.old.bundles ≡ false }
    ensures { queue.new
        ≡ record {
          room = queue.old.room;
          bundles = joined_each
              (passes is_out slots.now) needs.now queue.old.bundles;
        } }
{
    for b in needs {
        join(queue, is_out(slots, *b), *b);
    }
}

fn join(queue: &mut Queue, joins: bool, b: BundleNo)
    requires below { b.0 < queue.old.room }
    requires new { joins ≡ true → is_in b queue.old.bundles ≡ false }
    ensures { queue.new
        ≡ record { room = queue.old.room; bundles = if joins then queue.old.bundles ++ b ∷ [] else queue.old.bundles } }
{
    if joins {
        queue.push(b);
    }
}
