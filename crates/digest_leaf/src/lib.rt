// One leaf off the list: where it ends, its page, and the key of what follows it.
// Ported from nomt/src/beatree/ops/update/leaf_updater.rs of thrumdev/nomt: `consume_and_update_until`, `build_leaf` and `op_first_key`.
#![tactic(auto)]

ghost use Rattle.std.specs.Prelude.{◌≡◌, ◌≤◌, ◌<◌, length, take};
ghost use Rattle.leaf_node.specs.Build.{pushed, build};
ghost use Rattle.leaf_work.specs.Tests.{lent_key};
ghost use Rattle.leaf_cut.specs.Records.{span_of, records_from};
ghost use Rattle.leaf_cut.specs.Steps.{Spread, CursorIn, Leafed};
ghost use Rattle.leaf_write.specs.Filling.{entry_key, key_from};
ghost use Rattle.digest_leaf.specs.Pushing.{RecordsAsked, LeafAsked};
ghost use Rattle.digest_leaf.specs.Keys.{KeyAsked};

use leaf_builder::begin;
use leaf_cut::{Aim, Cursor, Gauge, Taken, consume_entry, consume_rest, span_of};
use leaf_node::{LeafNode, key_at};
use leaf_work::{Entry, Work};
use leaf_write::{Place, push_entry, push_range};

// The key of an entry's first record behind the first `skip`.
pub fn op_first_key<'a>(entry: &'a Entry, page: &'a [u8], skip: usize) -> &'a [u8; 32]
    requires { KeyAsked page.now entry.now skip }
    ensures { result.now ≡ entry_key page.now entry.now skip }
{
    if entry.is_insert() {
        return &entry.key;
    }
    key_at(page, entry.from + skip)
}

// What leaves are taken off: a work with its list, its store, and its base as it regards it. The entries used lie in list and base.
#[derive(Clone, Copy)]
pub struct Pending<'a> {
    pub work: &'a Work,
    pub list: &'a [Entry],
    pub store: &'a [u8],
    pub node: LeafNode<'a>,
    pub ghost spread: { Spread list.now node.page.now (span_of work.now) },
}

// Each clause names the parts: a definition that names `Pending` can't be cited in this file, since the ghost field imports all that the file
// cites.
impl<'a> Pending<'a> {
    // One leaf off the pending records from a cursor on: entry by entry, then the base's rest.
    pub fn consume_and_update_until(self, start: Cursor, aim: Aim) -> Taken
        requires { (CursorIn self.list.now self.node.page.now (span_of self.work.now) start) × (0 < aim.target) × (aim.target ≤ aim.limit) × (aim.limit ≤ 32767) }
        ensures { Leafed aim self.entry.list.now self.entry.node.page.now (span_of self.entry.work.now) start result }
    {
        let mut leaf = Gauge { count: 0, bytes: 0 };
        let mut at = start;
        for entry in &self.list[start.entry..self.work.used] {
            let taken = consume_entry(entry, self.node, at, leaf, aim);
            if taken.end.cut {
                return taken;
            }
            leaf = taken.end.leaf;
            at = taken.at;
        }
        consume_rest(self.node, span_of(self.work), at.skip, leaf, aim)
    }

    // Pushes records from a cursor on, as many as the page still takes.
    fn push_records(self, start: Cursor, d: &mut [u8], first: Place)
        requires { RecordsAsked self.list.now self.store.now self.node.page.now (span_of self.work.now) start first (length d.old) }
        ensures { let q = self.entry in d.new ≡ pushed d.old first.index first.at (take first.left (records_from (span_of q.work.now) q.list.now q.store.now q.node.page.now start)) }
    {
        let mut skip = start.skip;
        let mut place = first;
        for entry in &self.list[start.entry..self.work.used] {
            if place.left == 0 {
                return;
            }
            place = push_entry(entry, self.store, self.node.page, skip, d, place);
            skip = 0;
        }
        if place.left != 0 {
            push_range(self.node.page, self.work.low + skip, self.node.n, d, place);
        }
    }

    // The page of a leaf: `leaf.count` records from a cursor on, whose values have `leaf.bytes` bytes.
    pub fn build_leaf(self, start: Cursor, leaf: Gauge, d: &mut [u8])
        requires { LeafAsked self.list.now self.store.now self.node.page.now (span_of self.work.now) start leaf (length d.old) }
        ensures { let q = self.entry in d.new ≡ build (length d.old) (take leaf.count (records_from (span_of q.work.now) q.list.now q.store.now q.node.page.now start)) }
    {
        let at = begin(d, leaf.count, leaf.bytes);
        let first = Place {
            index: 0,
            at,
            left: leaf.count,
        };
        self.push_records(start, d, first);
    }

    // The key of the first record from a cursor on; none where no record is left.
    pub fn next_key(self, at: Cursor) -> Option<&'a [u8; 32]>
        requires { CursorIn self.list.now self.node.page.now (span_of self.work.now) at }
        ensures { lent_key result ≡ key_from (span_of self.entry.work.now) self.entry.list.now self.entry.node.page.now at }
    {
        if at.entry < self.work.used {
            return Some(op_first_key(&self.list[at.entry], self.node.page, at.skip));
        }
        let next = self.work.low + at.skip;
        if next < self.node.n {
            return Some(self.node.key(next));
        }
        None
    }
}
