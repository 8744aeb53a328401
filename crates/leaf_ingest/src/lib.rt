// What an ingest does of a key with a new value, or of a deletion: what it takes up of the base, what refuses it, and the work after it.
// Ported from nomt/src/beatree/ops/update/leaf_updater.rs of thrumdev/nomt: `LeafUpdater::ingest`, `keep_up_to` and `BaseLeaf::find_key`.
#![tactic(auto)]

ghost use Rattle.std.specs.Prelude.{◌≡◌, true, ◌+◌, ◌≤◌, length};
ghost use Rattle.refusal.specs.Refusal.{accepted};
ghost use Rattle.refusal.specs.Numbers.{number_of};
ghost use Rattle.leaf_node.specs.Steps.{Readable};
ghost use Rattle.leaf_work.specs.Tests.{bit};
ghost use Rattle.leaf_work.specs.TakingUp.{value_of};
ghost use Rattle.leaf_work.specs.Outcome.{report_by};
ghost use Rattle.leaf_ingest.specs.Reply.{change_of, report_of};
ghost use Rattle.leaf_ingest.specs.Steps.{Base, KeptAt, Taken, Sizes, key_verdict, room_verdict, added_by, ingest_work_by};

use leaf_check::lets_in;
use leaf_node::{Cell, LeafNode, Size, cell_at};
use leaf_work::{Room, Work};
use refusal::Refusal;

// A new value with its flag, or a deletion: two cases that the papers name, and so no `Option`.
#[derive(Clone, Copy)]
pub enum Change<'a> {
    Put { value: &'a [u8], flag: bool },
    Delete,
}

// What a key takes up of the base: its records up to `stop`. The one at `stop` is dropped where it has the key, and `low` is then
// where the rest begins. `taken` and `rest` are the value bytes of both. `dropped` is no `Option`, since the other fields are the
// same whether or not a record has the key: the records before it are taken up, the ones behind are the rest.
#[derive(Clone, Copy)]
pub struct Kept {
    pub stop: usize,
    pub dropped: bool,
    pub low: usize,
    pub taken: usize,
    pub rest: usize,
}

impl<'a> Change<'a> {
    // How many records a change lists.
    pub fn added(self) -> usize
        ensures { (result ≡ added_by (change_of self.entry)) × (result ≤ 1) }
    {
        match self {
            Change::Put { .. } => 1,
            Change::Delete => 0,
        }
    }

    // The bytes of a change; a deletion has none.
    pub fn value(self) -> &'a [u8]
        ensures { result.now ≡ value_of (change_of self.entry) }
    {
        match self {
            Change::Put { value, .. } => value,
            Change::Delete => &[],
        }
    }
}

// ---- what a key takes up

fn kept_at(node: LeafNode, low: usize, stop: usize, dropped: bool) -> Kept
    requires { (low ≤ stop) × (stop + bit dropped ≤ node.n) }
    ensures { KeptAt node.entry.page.now node.entry.n low stop dropped result }
{
    let next = stop + usize::from(dropped);
    Kept {
        stop,
        dropped,
        low: next,
        taken: node.size_between(low, stop),
        rest: node.size_between(next, node.n),
    }
}

// The base's records are kept up to the key.
pub fn keep_up_to(work: &Work, node: LeafNode, key: &[u8; 32]) -> Kept
    requires { Base work.now node.page.now node.n }
    ensures { Taken work.now node.entry.page.now key.now result }
{
    let low = work.low;
    if node.n <= low {
        return Kept {
            stop: low,
            dropped: false,
            low,
            taken: 0,
            rest: 0,
        };
    }
    match node.search(low, key) {
        Ok(i) => kept_at(node, low, i, true),
        Err(i) => kept_at(node, low, i, false),
    }
}

// ---- what refuses it

// Nos. 9 and 12 to 14: what refuses the key and its change.
pub fn key_verdict(work: &Work, key: &[u8; 32], change: Change, size: Size) -> Result<(), Refusal>
    ensures { number_of result ≡ key_verdict size.bytes work.now key.now (change_of change.entry) accepted }
{
    if !work.is_open() {
        return Err(Refusal::OutOfTurn);
    }
    if size.value_limit() < change.value().len() {
        return Err(Refusal::LongValue);
    }
    if !lets_in(*work, key) {
        return Err(Refusal::KeyTooLow);
    }
    if !work.is_in_scope(key) {
        return Err(Refusal::KeyPastCutoff);
    }
    Ok(())
}

// Nos. 15 and 16: what is pending then has no room.
pub fn room_verdict(
    work: &Work,
    kept: Kept,
    node: LeafNode,
    change: Change,
    room: Room,
) -> Result<(), Refusal>
    requires { (Sizes work.now kept) × (kept.low ≤ node.n) × (length (value_of (change_of change)) ≤ 32767) }
    ensures { number_of result ≡ room_verdict work.now kept node.entry.n (change_of change.entry) room.entries room.bytes }
{
    let count = work.count + (kept.stop - work.low) + change.added();
    if room.entries < count + (node.n - kept.low) {
        return Err(Refusal::ListFull);
    }
    let bytes = work.bytes + kept.taken + change.value().len();
    if room.bytes < bytes + kept.rest {
        return Err(Refusal::StoreFull);
    }
    Ok(())
}

// ---- an accepted ingest

// A flagged record that is dropped is reported: every one, or where one was taken up before it.
pub fn report_of(every: bool, low: usize, page: &[u8], kept: Kept) -> Option<Cell>
    requires { kept.dropped ≡ true → Readable page.now kept.stop }
    ensures { report_of result ≡ report_by every low page.now kept.stop kept.dropped }
{
    if !kept.dropped {
        return None;
    }
    if !every & (kept.stop <= low) {
        return None;
    }
    let cell = cell_at(page, kept.stop);
    if cell.flag {
        return Some(cell);
    }
    None
}

pub fn ingest_work(
    work: &Work,
    key: &[u8; 32],
    kept: Kept,
    used: usize,
    added: usize,
    len: usize,
) -> Work
    requires { (Sizes work.now kept) × (added ≤ 1) × (work.now.filled + len ≤ 65536) }
    ensures { result ≡ ingest_work_by work.now key.now kept used added len }
{
    Work {
        low: kept.low,
        used,
        filled: work.filled + len,
        count: work.count + (kept.stop - work.low) + added,
        bytes: work.bytes + kept.taken + len,
        taken: 1,
        last: *key,
        ..*work
    }
}
