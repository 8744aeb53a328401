// The ingest call: a key with a new value, or a deletion, is taken into an open work.
// Ported from nomt/src/beatree/ops/update/leaf_updater.rs of thrumdev/nomt: `LeafUpdater::ingest`.
#![tactic(auto)]

ghost use Rattle.std.specs.Prelude.{◌≡◌, ◌+◌, ◌-◌, ◌≤◌, length};
ghost use Rattle.leaf_work.specs.TakingUp.{value_of, chunk_entries, insert_entries, entries_with};
ghost use Rattle.leaf_work.specs.Ready.{Ready};
ghost use Rattle.leaf_work.specs.Outcome.{ingest_on, ingest_of};
ghost use Rattle.leaf_ingest.specs.Reply.{change_of, reply_of};
ghost use Rattle.leaf_ingest.specs.Steps.{added_by};
ghost use Rattle.leaf_take.specs.Reply.{change_given, report_out, Leaves};
ghost use Rattle.leaf_take.specs.Listing.{PutAt, HasRoom};

use leaf_check::lent_base;
use leaf_entries::{chunk_entry, insert_entry};
use leaf_ingest::{Change, Kept, ingest_work, keep_up_to, key_verdict, report_of, room_verdict};
use leaf_node::{Cell, LeafNode, PAGE, Size, copy_in};
use leaf_work::{Entry, Room, Work};
use refusal::Refusal;

// An ingest's answer for C: 0 or the refusal; whether a dropped cell is reported, 1 or 0, and its offset and length in the base page.
#[repr(C)]
#[derive(Clone, Copy)]
pub struct LeafReport {
    pub refusal: u8,
    pub reported: u8,
    pub offset: usize,
    pub len: usize,
}

impl From<Result<Option<Cell>, Refusal>> for LeafReport {
    ghost from_gives = { λ reply out. out ≡ report_out (reply_of reply) };

    fn from(reply: Result<Option<Cell>, Refusal>) -> LeafReport {
        match reply {
            Ok(Some(cell)) => LeafReport {
                refusal: 0,
                reported: 1,
                offset: cell.offset,
                len: cell.len,
            },
            Ok(None) => LeafReport {
                refusal: 0,
                reported: 0,
                offset: 0,
                len: 0,
            },
            Err(refusal) => LeafReport {
                refusal: u8::from(refusal),
                reported: 0,
                offset: 0,
                len: 0,
            },
        }
    }
}

// A change as C has it: with a new value and its flag where put is set, else a deletion, which ignores both.
pub fn change_of(put: u8, flag: u8, value: &[u8]) -> Change<'_>
    ensures { change_of result ≡ change_given put flag value.entry.now }
{
    if put == 0 {
        return Change::Delete;
    }
    Change::Put {
        value,
        flag: flag != 0,
    }
}

// ---- the entries

// A chunk behind the used entries, where one is listed; the next unused entry.
fn put_chunk(list: &mut [Entry], at: usize, low: usize, stop: usize, sum: usize) -> usize
    requires { at + (stop - low) ≤ length list.old }
    ensures { (PutAt list.old at (chunk_entries low stop sum) result list.new) × (result ≤ at + (stop - low)) }
{
    if stop <= low {
        return at;
    }
    list[at] = chunk_entry(low, stop, sum);
    at + 1
}

// An insert behind the used entries, where the change has one; the next unused entry.
fn put_insert(list: &mut [Entry], at: usize, from: usize, key: &[u8; 32], change: Change) -> usize
    requires { (at + added_by (change_of change) ≤ length list.old) × (from + length (value_of (change_of change)) ≤ 65536) }
    ensures { PutAt list.old at (insert_entries from key.now (change_of change.entry)) result list.new }
{
    match change {
        Change::Delete => at,
        Change::Put { value, flag } => {
            list[at] = insert_entry(from, from + value.len(), key, u8::from(flag));
            at + 1
        }
    }
}

// The new entries; the next unused one.
fn put_entries(work: &Work, list: &mut [Entry], kept: Kept, key: &[u8; 32], change: Change) -> usize
    requires { HasRoom work.now kept (change_of change) (length list.old) }
    ensures { PutAt list.old work.now.used (entries_with work.now key.now kept.stop kept.taken (change_of change.entry)) result list.new }
{
    let at = put_chunk(list, work.used, work.low, kept.stop, kept.taken);
    put_insert(list, at, work.filled, key, change)
}

// ---- the call

// An ingest into a work whose lent things earn no refusal, so that they aren't checked again; the base is as the work regards it.
// Its seven things are lent apart by C, or, as the size, belong to none of the others.
pub fn take_in(
    work: &mut Work,
    list: &mut [Entry],
    store: &mut [u8],
    node: LeafNode,
    key: &[u8; 32],
    change: Change,
    size: Size,
) -> Result<Option<Cell>, Refusal>
    requires { Ready work.old list.old store.old node.page.now }
    ensures { Leaves (ingest_on size.bytes work.old list.old store.old node.entry.page.now key.now (change_of change.entry) 0) result work.new list.new store.new }
{
    key_verdict(work, key, change, size)?;
    let kept = keep_up_to(work, node, key);
    room_verdict(work, kept, node, change, Room::of(list, store))?;
    let used = put_entries(work, list, kept, key, change);
    let value = change.value();
    copy_in(value, store, work.filled);
    let dropped = report_of(work.reports_every(), work.low, node.page, kept);
    *work = ingest_work(work, key, kept, used, change.added(), value.len());
    Ok(dropped)
}

// Ingest: base records below the key become pending, an equal one is dropped, and a new value is pending behind them. Answers the
// dropped cell where it is to be reported.
pub fn ingest(
    work: &mut Work,
    list: &mut [Entry],
    store: &mut [u8],
    page: &[u8],
    key: &[u8; 32],
    change: Change,
) -> Result<Option<Cell>, Refusal>
    ensures { Leaves (ingest_of 4096 work.old list.old store.old page.now key.now (change_of change.entry)) result work.new list.new store.new }
{
    let node = lent_base(work, list, store, page, PAGE)?;
    take_in(work, list, store, node, key, change, PAGE)
}
