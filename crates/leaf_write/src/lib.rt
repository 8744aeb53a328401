// What a digest gives of a leaf: its page, written straight from store and base, and its ticket; and the keys between leaves.
// Ported from nomt/src/beatree/ops/update/leaf_updater.rs of thrumdev/nomt: the turns of `build_leaf`.
#![tactic(auto)]

ghost use Rattle.std.specs.Prelude.{◌≡◌, [], ◌∷◌, ◌+◌, ◌≤◌, ◌<◌, length, take};
ghost use Rattle.bit_ops.specs.Separate.{separate_leaves};
ghost use Rattle.leaf_node.specs.Page.{pointer, key_at, records_between};
ghost use Rattle.leaf_node.specs.Build.{put};
ghost use Rattle.leaf_node.specs.Ticket.{packed_with};
ghost use Rattle.leaf_model.specs.Work.{zero_key};
ghost use Rattle.leaf_work.specs.Tests.{lent_key};
ghost use Rattle.leaf_cut.specs.Records.{entry_records};
ghost use Rattle.leaf_write.specs.Filling.{insert_record, RangeIn, InsertIn, EntryThere, RoomAt, PushedAt};

use bit_ops::separate;
use leaf_builder::{push_cell, push_chunk};
use leaf_node::{copy_in, key_at};
use leaf_work::Entry;

// ---- the page of a leaf

// Where the next record of a page goes: its index, and the byte at which its value begins; and how many records the page still takes.
#[derive(Clone, Copy)]
pub struct Place {
    pub index: usize,
    pub at: usize,
    pub left: usize,
}

// Pushes base records `from` up to `to`, as many as the page still takes. Answers the place behind them.
pub fn push_range(page: &[u8], from: usize, to: usize, d: &mut [u8], place: Place) -> Place
    requires { (RangeIn page.now from to) × (RoomAt (length d.old) place (records_between page.now from to)) }
    ensures { PushedAt d.old place (records_between page.now from to) d.new result }
{
    let count = place.left.min(to - from);
    let at = push_chunk(page, from, from + count, d, place.index, place.at);
    Place {
        index: place.index + count,
        at,
        left: place.left - count,
    }
}

// Pushes an insert.
fn push_insert(entry: &Entry, store: &[u8], d: &mut [u8], place: Place) -> Place
    requires { (InsertIn entry.now (length store.now)) × (0 < place.left) × (RoomAt (length d.old) place (insert_record store.now entry.now ∷ [])) }
    ensures { PushedAt d.old place (insert_record store.now entry.now ∷ []) d.new result }
{
    let value = &store[entry.from..entry.to];
    let flag = entry.is_flagged();
    let end = push_cell(d, place.index, place.at, &entry.key, value, flag);
    Place {
        index: place.index + 1,
        at: end,
        left: place.left - 1,
    }
}

// Pushes an entry's records behind the first `skip`, as many as the page still takes.
pub fn push_entry(
    entry: &Entry,
    store: &[u8],
    page: &[u8],
    skip: usize,
    d: &mut [u8],
    place: Place,
) -> Place
    requires { (EntryThere store.now page.now entry.now skip) × (0 < place.left) × (RoomAt (length d.old) place (entry_records store.now page.now entry.now skip)) }
    ensures { PushedAt d.old place (entry_records store.now page.now entry.now skip) d.new result }
{
    if entry.is_insert() {
        return push_insert(entry, store, d, place);
    }
    push_range(page, entry.from + skip, entry.to, d, place)
}

// ---- keys

// The separator between a leaf, by its page and the index of its last record, and the records behind it, by the first key of these.
pub fn next_separator(leaf: &[u8], last: usize, next: &[u8; 32]) -> [u8; 32]
    requires { pointer (last + 1) ≤ length leaf.now }
    ensures { result ≡ separate_leaves (key_at leaf.now last) next.now zero_key }
{
    let mut out = [0u8; 32];
    let _ = separate(key_at(leaf, last), next, &mut out); // equal keys would leave zeros
    out
}

// ---- tickets

// A ticket's kind and separator, at byte `at`.
fn put_separator(tickets: &mut [u8], at: usize, kind: u8, separator: &[u8; 32])
    requires { at + 33 ≤ length tickets.old }
    ensures { tickets.new ≡ put tickets.old at (kind ∷ separator.now) }
{
    tickets[at] = kind;
    copy_in(separator, tickets, at + 1);
}

// A ticket at byte `at`. Answers where the next one begins.
pub fn put_ticket(
    tickets: &mut [u8],
    at: usize,
    separator: &[u8; 32],
    cutoff: Option<&[u8; 32]>,
) -> usize
    requires { at + 65 ≤ length tickets.old }
    ensures { let t = packed_with separator.now (lent_key cutoff.entry) in (tickets.new ≡ put tickets.old at t) × (result ≡ at + length t) × (result ≤ at + 65) }
{
    match cutoff {
        Some(cutoff) => {
            put_separator(tickets, at, 1, separator);
            copy_in(cutoff, tickets, at + 33);
            at + 65
        }
        None => {
            put_separator(tickets, at, 2, separator);
            at + 33
        }
    }
}
