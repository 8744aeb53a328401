// How far a digest has come with giving leaves: where it begins, how it goes on with each leaf and its ticket, and whether what is left waits
// for a merge.
// Ported from nomt/src/beatree/ops/update/leaf_updater.rs of thrumdev/nomt: parts of `try_build_leaves` and `digest`.
#![tactic(auto)]

ghost use Rattle.std.specs.Prelude.{◌≡◌, ◌&&◌, ◌≤◌, ltb, length};
ghost use Rattle.leaf_node.specs.Limits.{merge_below};
ghost use Rattle.leaf_work.specs.Tests.{lent_key};
ghost use Rattle.leaf_cut.specs.Sizes.{body_of};
ghost use Rattle.leaf_cut.specs.Steps.{Modest};
ghost use Rattle.leaf_give.specs.Steps.{TicketAsked, LastKeyThere, separator_behind, FurtherBy, listed_in, BegunBy};

use leaf_cut::{Cursor, Gauge, Taken, pending_gauge, target_of};
use leaf_node::{LeafNode, Size};
use leaf_work::Work;
use leaf_write::{next_separator, put_ticket};

#[cfg(test)]
mod tests;

// How far a digest has come: the cursor behind the leaves given out, the records behind it, how many leaves there are, where the next
// ticket begins, and the separator of what follows.
#[derive(Clone, Copy)]
pub struct Progress {
    pub at: Cursor,
    pub left: Gauge,
    pub leaves: usize,
    pub place: usize,
    pub separator: [u8; 32],
}

// ---- one leaf

// The ticket of a leaf, up to what separates it from the records behind it, where there are any, else up to the cutoff; and how far the digest has
// come with it. For a caller that has the separator ready made: it is written as the cutoff of a last leaf is, and no page is read.
pub fn give_ticket(
    p: Progress,
    taken: Taken,
    next: Option<&[u8; 32]>,
    cutoff: Option<&[u8; 32]>,
    tickets: &mut [u8],
) -> Progress
    requires { TicketAsked p taken.end.leaf (length tickets.old) }
    ensures { FurtherBy p taken (lent_key next.entry) (lent_key cutoff.entry) tickets.old result tickets.new }
{
    let further = give_ticket_by_page(p, taken, None, next.or(cutoff), &[], tickets);
    let separator = *next.unwrap_or(&p.separator);
    Progress {
        separator,
        ..further
    }
}

// The ticket of a leaf, up to what separates it from the records behind it, by its page and the first key of these, where there are any, else up to
// the cutoff; and how far the digest has come with it.
pub fn give_ticket_by_page(
    p: Progress,
    taken: Taken,
    next: Option<&[u8; 32]>,
    cutoff: Option<&[u8; 32]>,
    built: &[u8],
    tickets: &mut [u8],
) -> Progress
    requires { (TicketAsked p taken.end.leaf (length tickets.old)) × (LastKeyThere built.now taken.end.leaf (lent_key next)) }
    ensures { FurtherBy p taken (separator_behind built.now taken.end.leaf (lent_key next.entry)) (lent_key cutoff.entry) tickets.old result tickets.new }
{
    let between = match next {
        Some(key) => Some(next_separator(built, taken.end.leaf.count - 1, key)),
        None => None,
    };
    let place = put_ticket(tickets, p.place, &p.separator, between.as_ref().or(cutoff));
    Progress {
        at: taken.at,
        left: Gauge {
            count: p.left.count - taken.end.leaf.count,
            bytes: p.left.bytes - taken.end.leaf.bytes,
        },
        leaves: p.leaves + 1,
        place,
        separator: between.unwrap_or(p.separator),
    }
}

// ---- leaf after leaf

// Where giving leaves begins: all that is pending is left. Where there is a target, leaves are cut off it.
#[derive(Clone, Copy)]
pub struct Beginning {
    pub start: Progress,
    pub target: Option<usize>,
}

// Where giving leaves begins, steps 1 and 2.
pub fn begin_leaves(work: &Work, node: LeafNode, size: Size) -> Beginning
    requires { (work.now.low ≤ node.n) × (Modest (listed_in work.now)) }
    ensures { BegunBy size.bytes work.now node.entry.page.now node.entry.n result }
{
    let listed = Gauge {
        count: work.count,
        bytes: work.bytes,
    };
    let left = pending_gauge(listed, node, work.low);
    Beginning {
        start: Progress {
            at: Cursor { entry: 0, skip: 0 },
            left,
            leaves: 0,
            place: 0,
            separator: work.separator(),
        },
        target: target_of(left.body(), size),
    }
}

// Whether what is left waits for a merge: there is a cutoff, and it has too small a body for a leaf.
pub fn waits(cut: bool, left: Gauge, size: Size) -> bool
    requires { (left.count ≤ 98304) × (left.bytes ≤ 98304) }
    ensures { result ≡ (cut && ltb (body_of left) (merge_below size.bytes)) }
{
    cut & (left.body() < size.merge_below())
}
