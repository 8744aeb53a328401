// The leaves of a digest, given out over the list: pages into the area, tickets behind one another.
// Ported from nomt/src/beatree/ops/update/leaf_updater.rs of thrumdev/nomt: `try_build_leaves` and the first half of `digest`.
#![tactic(auto)]

ghost use Rattle.std.specs.Prelude.{◌≡◌, ◌≤◌};
ghost use Rattle.digest_leaves.specs.Leaves.{is_last, LeavesAsked, LeavesGiven, CutAsked, AllCut};

use digest_give::give_leaf;
use digest_leaf::Pending;
use leaf_cut::{Aim, Cursor, Ended, Taken};
use leaf_give::{Progress, begin_leaves, waits};
use leaf_node::Size;
use leaf_work::Work;

// Whether what is left is the last leaf: there are records, and they wait for no merge.
fn is_last(work: &Work, p: Progress, size: Size) -> bool
    requires { (p.left.count ≤ 98304) × (p.left.bytes ≤ 98304) }
    ensures { result ≡ is_last size.bytes work.now p }
{
    let left = p.left;
    (left.count != 0) & !waits(work.cutoff().is_some(), left, size)
}

// ---- leaf after leaf

// Leaves with the target's body off all that is pending, as long as there are any. Steps 3 and 5.
fn try_build_leaves(
    pending: Pending,
    start: Progress,
    target: usize,
    area: &mut [u8],
    tickets: &mut [u8],
    size: Size,
) -> Progress
    requires { CutAsked size.bytes pending area.old tickets.old start target }
    ensures { AllCut size.bytes pending.entry area.old tickets.old result area.new tickets.new }
{
    let limit = size.body_limit();
    let aim = Aim { target, limit };
    let mut p = start;
    let mut t = pending.consume_and_update_until(start.at, aim);
    // it goes on until no leaf is cut off any more: no index counts to that
    while t.end.cut {
        p = give_leaf(pending, p, t, area, tickets, size);
        t = pending.consume_and_update_until(p.at, aim);
    }
    p
}

// The leaves that are cut off what is pending, steps 1 to 3.
fn cut_leaves(pending: Pending, area: &mut [u8], tickets: &mut [u8], size: Size) -> Progress
    requires { LeavesAsked size.bytes pending area.old tickets.old }
    ensures { AllCut size.bytes pending.entry area.old tickets.old result area.new tickets.new }
{
    let begun = begin_leaves(pending.work, pending.node, size);
    match begun.target {
        Some(target) => try_build_leaves(pending, begun.start, target, area, tickets, size),
        None => begun.start,
    }
}

// All leaves of a digest, steps 1 to 5.
pub fn give_leaves(pending: Pending, area: &mut [u8], tickets: &mut [u8], size: Size) -> Progress
    requires { LeavesAsked size.bytes pending area.old tickets.old }
    ensures { LeavesGiven size.bytes pending.entry area.old tickets.old result area.new tickets.new }
{
    let p = cut_leaves(pending, area, tickets, size);
    if !is_last(pending.work, p, size) {
        return p;
    }
    let last = Taken {
        end: Ended {
            cut: false,
            leaf: p.left,
        },
        at: Cursor {
            entry: pending.work.used,
            skip: pending.node.n - pending.work.low,
        },
    };
    give_leaf(pending, p, last, area, tickets, size)
}
