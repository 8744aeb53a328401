// One leaf off the list, given out: its page into the area, its ticket behind the others.
// Ported from nomt/src/beatree/ops/update/leaf_updater.rs of thrumdev/nomt: a turn of `try_build_leaves`.
#![tactic(auto)]

ghost use Rattle.std.specs.Prelude.{length};
ghost use Rattle.digest_give.specs.Leaf.{TakenThere, TakenGiven};

use digest_leaf::Pending;
use leaf_cut::Taken;
use leaf_give::{Progress, give_ticket_by_page};
use leaf_node::Size;

// Gives out a leaf that was taken off what is pending: its page and its ticket.
pub fn give_leaf(
    pending: Pending,
    p: Progress,
    taken: Taken,
    area: &mut [u8],
    tickets: &mut [u8],
    size: Size,
) -> Progress
    requires { TakenThere size.bytes pending p taken (length area.old) (length tickets.old) }
    ensures { TakenGiven size.bytes pending.entry p taken area.old tickets.old result area.new tickets.new }
{
    let from = p.leaves * size.bytes;
    let to = from + size.bytes;
    pending.build_leaf(p.at, taken.end.leaf, &mut area[from..to]);
    let next = pending.next_key(taken.at);
    let cutoff = pending.work.cutoff();
    give_ticket_by_page(p, taken, next, cutoff, &area[from..to], tickets)
}
