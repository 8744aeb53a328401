// What a digest keeps for a merge: its records turned into inserts in place, in list and store.
// Ported from nomt/src/beatree/ops/update/leaf_updater.rs of thrumdev/nomt: `prepare_merge_ops`.
//
// The Rust makes a new vector. Here list and store have no room beside them, so the records are first raised, the last one first, to the end of
// the store and to an entry behind which nothing is in use, and then moved down to the start. Every entry has a record, there are entries for
// all that is pending or for what is kept beside the used ones, and the store has room for all that is pending, so that what is raised never
// covers what is still to be read.
#![tactic(auto)]

ghost use Rattle.std.specs.Prelude.{◌≡◌, ◌++◌, ◌+◌, ◌-◌, ◌≤◌, ◌<◌, length, take, drop};
ghost use Rattle.leaf_node.specs.Page.{record_at};
ghost use Rattle.leaf_work.specs.Tests.{bit};
ghost use Rattle.leaf_work.specs.Lent.{blank, insert_at};
ghost use Rattle.leaf_cut.specs.Records.{records_from};
ghost use Rattle.leaf_write.specs.Filling.{insert_record, InsertIn};
ghost use Rattle.leaf_move.specs.Moving.{settled};
ghost use Rattle.leaf_raise.specs.Raising.{Raised};
ghost use Rattle.leaf_merge.specs.Keeping.{Keeps, KeptAs};
ghost use Rattle.leaf_merge.specs.Lifting.{Raises};
ghost use Rattle.digest_keep.specs.Lifting.{LiftedTo, last_record, RoomFor, LastThere, part_records, RaisedTo, Raisable, place_before, part_of, RestThere, room_by};
ghost use Rattle.digest_keep.specs.Keeping.{KeepsIn};

use leaf_cut::{Cursor, Gauge, Span, span_of};
use leaf_entries::{chunk_entry, drain, insert, insert_entry, records_in_entry, split};
use leaf_merge::skip_at;
use leaf_move::{move_up, settle_bytes};
use leaf_node::{LeafNode, copy_in};
use leaf_raise::{Top, lower};
use leaf_work::{Entry, Work};

// ---- one record: its value in the store, and the entry that lists it

// The entry of a record that was raised, and the top below it.
#[derive(Clone, Copy)]
struct Lifted {
    top: Top,
    entry: Entry,
}

// A record below `next`, whose value ends at `end` in the store that is made.
fn listed_below(key: &[u8; 32], flag: bool, next: Top, end: usize) -> Lifted
    ensures { result ≡ record { top = next; entry = insert_at next.to end key.now (bit flag) } }
{
    let flag = u8::from(flag);
    Lifted {
        top: next,
        entry: insert_entry(next.to, end, key, flag),
    }
}

// Raises a record, whose value is copied into the store.
fn lift_record(key: &[u8; 32], value: &[u8], flag: bool, store: &mut [u8], top: Top) -> Lifted
    requires { RoomFor (length store.old) top (length value.now) }
    ensures { LiftedTo store.old top (record { key = key.entry.now; value = value.now; flag = flag }) result store.new }
{
    let next = lower(top, value.len());
    copy_in(value, store, next.at);
    listed_below(key, flag, next, top.to)
}

// Raises record i of the base.
fn lift_base(node: LeafNode, i: usize, store: &mut [u8], top: Top) -> Lifted
    requires { (i < node.n) × (RoomFor (length store.old) top (length (record_at node.page.now i).value)) }
    ensures { LiftedTo store.old top (record_at node.entry.page.now i) result store.new }
{
    let cell = node.cell(i);
    let from = cell.offset;
    let end = from + cell.len;
    lift_record(node.key(i), &node.page[from..end], cell.flag, store, top)
}

// Raises an insert, whose value is moved up within the store.
fn lift_insert(entry: Entry, store: &mut [u8], top: Top) -> Lifted
    requires { (InsertIn entry top.at) × (RoomFor (length store.old) top (length (insert_record store.old entry).value)) }
    ensures { LiftedTo store.old top (insert_record store.old entry) result store.new }
{
    let next = lower(top, entry.to - entry.from);
    move_up(store, entry.from, entry.to, top.at);
    listed_below(&entry.key, entry.is_flagged(), next, top.to)
}

// Raises an entry's last record but i.
fn lift_last(part: Entry, node: LeafNode, i: usize, store: &mut [u8], top: Top) -> Lifted
    requires { LastThere store.old node.page.now part i top }
    ensures { LiftedTo store.old top (last_record store.old node.entry.page.now part i) result store.new }
{
    if part.is_insert() {
        return lift_insert(part, store, top);
    }
    lift_base(node, part.to - 1 - i, store, top)
}

// ---- one entry

// Raises an entry's records, the last one first.
fn raise_entry(part: Entry, node: LeafNode, list: &mut [Entry], store: &mut [u8], start: Top) -> Top
    requires { Raisable list.old store.old node.page.now part start }
    ensures { RaisedTo list.old store.old start (part_records store.old node.entry.page.now part) result list.new store.new }
{
    let mut top = start;
    for i in 0..records_in_entry(&part) {
        let lifted = lift_last(part, node, i, store, top);
        top = lifted.top;
        insert(list, top.entry, lifted.entry);
    }
    top
}

// ---- all that is kept

// Nothing is raised yet of records whose values have `bytes` bytes.
fn full_top(room: usize, bytes: usize, end: usize) -> Top
    ensures { result ≡ record { entry = room; to = bytes; at = end } }
{
    Top {
        entry: room,
        to: bytes,
        at: end,
    }
}

// The cursor of the last part but i: the base's rest, then the entries from the last one on.
fn place_before(span: Span, at: Cursor, i: usize) -> Cursor
    requires { i ≤ span.used }
    ensures { result ≡ place_before span at i }
{
    let entry = span.used - i;
    Cursor {
        entry,
        skip: skip_at(at, entry),
    }
}

// What the cursor stands before: its entry, which was split there, or the base's rest, of n records, as a chunk.
fn part_of(entry: Entry, n: usize, span: Span, place: Cursor) -> Entry
    requires { RestThere n span place }
    ensures { result ≡ part_of entry n span place }
{
    if place.entry < span.used {
        return entry;
    }
    chunk_entry(span.low + place.skip, n, 0)
}

// Raises all records from a cursor on, up to the store's end: the base's rest, then entry by entry, the last one first.
fn raise(list: &mut [Entry], store: &mut [u8], node: LeafNode, span: Span, at: Cursor, start: Top)
    requires { (Raises list.old store.old node.page.now span at start.to start.entry) × (start.at ≡ length store.old) }
    ensures { Raised list.old store.old start (records_from span list.old store.old node.entry.page.now at) list.new store.new }
{
    let mut top = start;
    for i in 0..span.used + 1 - at.entry {
        let place = place_before(span, at, i);
        let entry = split(list, place.entry, place.skip);
        let part = part_of(entry, node.n, span, place);
        top = raise_entry(part, node, list, store, top);
    }
}

// ---- down to the start

// The last `count` entries at the start, and unused ones behind them.
fn settle_entries(list: &mut [Entry], count: usize)
    requires { count ≤ length list.old }
    ensures { list.new ≡ settled blank list.old count }
{
    let all = list.len();
    list.copy_within(all - count..all, 0);
    drain(list, count);
}

// The same within the first `room` entries.
fn settle_first(list: &mut [Entry], room: usize, count: usize)
    requires { (count ≤ room) × (room ≤ length list.old) }
    ensures { list.new ≡ settled blank (take room list.old) count ++ drop room list.old }
{
    settle_entries(&mut list[..room], count);
}

// ---- list and store

// To which entry the kept records are raised: there they stand beside the used ones, or behind the list's end there is nothing.
fn room_by(used: usize, kept: usize, entries: usize) -> usize
    ensures { result ≡ room_by used kept entries }
{
    used.saturating_add(kept).min(entries)
}

// List and store after a digest: the records from the cursor on as inserts, then zeros.
pub fn prepare_merge_ops(
    work: &Work,
    list: &mut [Entry],
    store: &mut [u8],
    node: LeafNode,
    at: Cursor,
    left: Gauge,
)
    requires { KeepsIn work.now list.old store.old node.page.now at left }
    ensures { KeptAs work.now list.old store.old node.entry.page.now at list.new store.new }
{
    let span = span_of(work);
    let room = room_by(work.used, left.count, list.len());
    let start = full_top(room, left.bytes, store.len());
    raise(list, store, node, span, at, start);
    settle_first(list, room, left.count);
    settle_bytes(store, left.bytes, work.filled);
}

// The same for a caller that doesn't know what its list holds behind the used entries: they are cleared first. Of a sound work they are zeros, so
// that a digest calls `prepare_merge_ops`, which doesn't go over them.
pub fn prepare_merge_ops_of_any_list(
    work: &Work,
    list: &mut [Entry],
    store: &mut [u8],
    node: LeafNode,
    at: Cursor,
    left: Gauge,
)
    requires { Keeps work.now list.old store.old node.page.now at left (length list.old) }
    ensures { KeptAs work.now list.old store.old node.entry.page.now at list.new store.new }
{
    drain(list, work.used);
    prepare_merge_ops(work, list, store, node, at, left);
}
