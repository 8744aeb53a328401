// Cutting the pending records into leaves: how large they are, and where each leaf ends. It reads entries and base page, and no value.
// Ported from nomt/src/beatree/ops/update/leaf_updater.rs of thrumdev/nomt: `LeafGauge`, `try_split_keep_chunk` and the turns of
// `consume_and_update_until`.
#![tactic(auto)]

ghost use Rattle.std.specs.Prelude.{◌≡◌, ◌&&◌, [], ◌∷◌, ◌+◌, ◌-◌, ◌*◌, ◌^◌, ◌≤◌, ◌<◌, leb};
ghost use Rattle.leaf_node.specs.Limits.{pages_asked};
ghost use Rattle.leaf_node.specs.Page.{length_at, run};
ghost use Rattle.leaf_model.specs.Cut.{target_of};
ghost use Rattle.leaf_cut.specs.Sizes.{cut_sizes, body_of, passed_by};
ghost use Rattle.leaf_cut.specs.Records.{span_of};
ghost use Rattle.leaf_cut.specs.Steps.{Modest, WithRest, Leaf, EntryAt, EntryTaken, RestTaken};

use leaf_node::{LeafNode, Size};
use leaf_work::{Entry, Work};

// How many records, and how many bytes their values have.
#[derive(Clone, Copy)]
pub struct Gauge {
    pub count: usize,
    pub bytes: usize,
}

impl Gauge {
    // The body of a leaf with these records.
    pub fn body(self) -> usize
        requires { 34 * self.count + self.bytes < 2 ^ 64 }
        ensures { result ≡ body_of self }
    {
        34 * self.count + self.bytes
    }
}

// The body that a leaf aims at, and the most that a page takes.
#[derive(Clone, Copy)]
pub struct Aim {
    pub target: usize,
    pub limit: usize,
}

// How far list and base reach: the entries used, and where the base's rest begins.
#[derive(Clone, Copy)]
pub struct Span {
    pub used: usize,
    pub low: usize,
}

// A place among the pending records: an entry, and how many of its records were passed. Entry `used` stands for the base's rest.
#[derive(Clone, Copy)]
pub struct Cursor {
    pub entry: usize,
    pub skip: usize,
}

// Whether a leaf was cut, and its gauge; where none was cut, that of all that was there. Both ends have a gauge, so that the flag stands
// beside it.
#[derive(Clone, Copy)]
pub struct Ended {
    pub cut: bool,
    pub leaf: Gauge,
}

// A leaf, or where none was cut all that was there, and the cursor behind it.
#[derive(Clone, Copy)]
pub struct Taken {
    pub end: Ended,
    pub at: Cursor,
}

// ---- what is pending

pub fn span_of(work: &Work) -> Span
    ensures { result ≡ span_of work.now }
{
    Span {
        used: work.used,
        low: work.low,
    }
}

// The gauge of all pending records, by that of the listed ones: the base's rest, from `low` on, is added.
pub fn pending_gauge(listed: Gauge, node: LeafNode, low: usize) -> Gauge
    requires { (low ≤ node.n) × (Modest listed) }
    ensures { WithRest listed node.entry.page.now low node.entry.n result }
{
    Gauge {
        count: listed.count + (node.n - low),
        bytes: listed.bytes + node.size_between(low, node.n),
    }
}

// How many pages a digest of pending records with this body asks for.
fn pages_asked(body: usize, size: Size) -> usize
    requires { body ≤ 8388608 }
    ensures { (result ≡ pages_asked size.bytes body) × (result ≤ 16777216) }
{
    let least = size.merge_below();
    (body + (least - 1)) / least
}

// Whether area and tickets have room for the pages that a digest asks for, with 65 ticket bytes a page.
pub fn has_pages(pending: Gauge, area: usize, tickets: usize, size: Size) -> bool
    requires { (pending.count ≤ 98304) × (pending.bytes ≤ 98304) }
    ensures { result ≡ (leb (pages_asked size.bytes (body_of pending) * size.bytes) area && leb (pages_asked size.bytes (body_of pending) * 65) tickets) }
{
    let asked = pages_asked(pending.body(), size);
    (asked * size.bytes <= area) & (asked * 65 <= tickets)
}

// The body that each leaf aims at where leaves are cut off pending records with this body, in bulk or in halves.
pub fn target_of(body: usize, size: Size) -> Option<usize>
    requires { body ≤ 8388608 }
    ensures { result ≡ target_of size.bytes body }
{
    if size.bulk_above() < body {
        return Some(size.bulk_target());
    }
    if size.body_limit() < body {
        return Some(body / 2);
    }
    None
}

// ---- where a leaf ends

// A leaf that comes to an insert, whose value has `value` bytes.
fn consume_insert(value: usize, leaf: Gauge, aim: Aim) -> Ended
    requires { (value ≤ 65536) × (Leaf aim leaf) }
    ensures { result ≡ cut_sizes aim.limit aim.target leaf.count leaf.bytes (value ∷ []) }
{
    let after = Gauge {
        count: leaf.count + 1,
        bytes: leaf.bytes + value,
    };
    let body = after.body();
    if aim.limit < body {
        return Ended { cut: true, leaf };
    }
    Ended {
        cut: aim.target <= body,
        leaf: after,
    }
}

// A leaf that comes to a chunk: record by record, until the target is reached or a record would pass the limit.
fn try_split_keep_chunk(node: LeafNode, from: usize, to: usize, leaf: Gauge, aim: Aim) -> Ended
    requires { (from ≤ to) × (to ≤ node.n) × (Leaf aim leaf) }
    ensures { result ≡ cut_sizes aim.limit aim.target leaf.count leaf.bytes (run (to - from) from (length_at node.entry.page.now)) }
{
    let mut so_far = leaf;
    for i in from..to {
        let after = Gauge {
            count: so_far.count + 1,
            bytes: so_far.bytes + node.size_between(i, i + 1),
        };
        let body = after.body();
        if aim.limit < body {
            return Ended {
                cut: true,
                leaf: so_far,
            };
        }
        if aim.target <= body {
            return Ended {
                cut: true,
                leaf: after,
            };
        }
        so_far = after;
    }
    Ended {
        cut: false,
        leaf: so_far,
    }
}

// A leaf that comes to base records `from` up to `to`: it takes them whole where its body stays below the target.
fn consume_chunk(node: LeafNode, from: usize, to: usize, leaf: Gauge, aim: Aim) -> Ended
    requires { (from ≤ to) × (to ≤ node.n) × (Leaf aim leaf) }
    ensures { result ≡ cut_sizes aim.limit aim.target leaf.count leaf.bytes (run (to - from) from (length_at node.entry.page.now)) }
{
    let after = Gauge {
        count: leaf.count + (to - from),
        bytes: leaf.bytes + node.size_between(from, to),
    };
    if after.body() < aim.target {
        return Ended {
            cut: false,
            leaf: after,
        };
    }
    try_split_keep_chunk(node, from, to, leaf, aim)
}

// ---- one leaf

// The cursor behind `taken` of the `all` records that an entry has from it on.
fn pass(at: Cursor, all: usize, taken: usize) -> Cursor
    requires { (at.entry ≤ 65536) × (at.skip ≤ 65536) × (taken ≤ 65536) }
    ensures { result ≡ passed_by at all taken }
{
    if taken == all {
        return Cursor {
            entry: at.entry + 1,
            skip: 0,
        };
    }
    Cursor {
        entry: at.entry,
        skip: at.skip + taken,
    }
}

// A leaf that comes to an entry.
pub fn consume_entry(entry: &Entry, node: LeafNode, at: Cursor, leaf: Gauge, aim: Aim) -> Taken
    requires { (EntryAt node.n entry.now at) × (Leaf aim leaf) }
    ensures { EntryTaken aim node.entry.page.now entry.now at leaf result }
{
    if entry.is_insert() {
        let end = consume_insert(entry.to - entry.from, leaf, aim);
        return Taken {
            end,
            at: pass(at, 1, end.leaf.count - leaf.count),
        };
    }
    let from = entry.from + at.skip;
    let end = consume_chunk(node, from, entry.to, leaf, aim);
    Taken {
        end,
        at: pass(at, entry.to - from, end.leaf.count - leaf.count),
    }
}

// A leaf that comes to the base's rest.
pub fn consume_rest(node: LeafNode, span: Span, skip: usize, leaf: Gauge, aim: Aim) -> Taken
    requires { (span.low + skip ≤ node.n) × (Leaf aim leaf) }
    ensures { RestTaken aim node.entry.page.now node.entry.n span skip leaf result }
{
    let end = consume_chunk(node, span.low + skip, node.n, leaf, aim);
    Taken {
        end,
        at: Cursor {
            entry: span.used,
            skip: skip + (end.leaf.count - leaf.count),
        },
    }
}
