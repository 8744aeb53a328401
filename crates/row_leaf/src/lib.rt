// Document 02, M-101: one leaf of a row, loaded or copied.
// Ported from nomt/src/beatree/ops/update/leaf_stage.rs of thrumdev/nomt: the turns of `run_worker`.
#![tactic(auto)]

ghost use Rattle.std.specs.Prelude.{◌≡◌, ◌+◌, ◌*◌, ◌≤◌, ◌<◌, length, replicate};
ghost use Rattle.row_leaf.specs.Leaf.{leaf_at, PageThere, BaseThere, page_in, changes_end, is_loaded, Begins, LeafBegun, CopyThere, LeafCopied};
ghost use Rattle.row_tickets.specs.Linked.{linked_all, separators_read};
ghost use Rattle.row_leaf.specs.Load.{LinkThere, given_by, DigestThere, LeafDigested, LoadAsked, LoadGiven};

use bit_ops::less;
use digest::digest_ready;
use leaf_again::{follows_verdict, next_base_work};
use leaf_digest::Given;
use leaf_node::{LeafNode, PAGE, PAGE_SIZE, copy_in, count_of};
use leaf_open::fresh_work;
use leaf_work::{Entry, Room, Work};
use refusal::Refusal;
use row_changes::{LeafChange, key_of};
use row_check::Row;
use row_ingest::take_changes;
use row_tickets::{link, link_leaves};

// What a row call is lent and only reads: the row, the changes, and their values.
#[derive(Clone, Copy)]
pub struct LentRow<'a> {
    pub row: Row<'a>,
    pub changes: &'a [LeafChange],
    pub values: &'a [u8],
}

// A leaf of the row: where its page begins, its separator, and its cutoff where there is one. A row without leaves has one without a page, whose separator is zeros.
#[derive(Clone, Copy)]
pub struct LeafAt {
    pub page: Option<usize>,
    pub separator: [u8; 32],
    pub cutoff: Option<[u8; 32]>,
}

// What the turns have come to: the leaves of the new row and the last one's separator; the next change and where its value begins; the work that holds the records that wait for
// a merge, where there are any.
#[derive(Clone, Copy)]
pub struct RowAt {
    pub leaves: usize,
    pub last: [u8; 32],
    pub change: usize,
    pub value: usize,
    pub waiting: Option<Work>,
}

// The turn of a leaf: what the turns before it have come to, the leaf, and where the changes end that it takes.
#[derive(Clone, Copy)]
pub struct Turn {
    pub at: RowAt,
    pub leaf: LeafAt,
    pub to: usize,
}

// A leaf that is loaded: its work, and its page.
#[derive(Clone, Copy)]
struct LoadedLeaf<'a> {
    work: Work,
    node: LeafNode<'a>,
}

// ---- which leaf, and which changes

// Leaf i of a row with these separators.
pub fn leaf_at(separators: &[[u8; 32]], i: usize) -> LeafAt
    requires { length separators.now ≤ 16 }
    ensures { result ≡ leaf_at separators.now i }
{
    if separators.len() <= i {
        return LeafAt {
            page: None,
            separator: [0u8; 32],
            cutoff: None,
        };
    }
    LeafAt {
        page: Some(i * PAGE_SIZE),
        separator: separators[i],
        cutoff: separators.get(i + 1).copied(),
    }
}

// Where the changes end that a leaf takes: the first one from `from` on whose key isn't below its cutoff.
pub fn changes_end(changes: &[LeafChange], from: usize, leaf: LeafAt) -> usize
    requires { from ≤ length changes.now }
    ensures { result ≡ changes_end changes.now from leaf }
{
    let Some(cutoff) = leaf.cutoff else {
        return changes.len();
    };
    let behind = &changes[from..];
    match behind.iter().position(|c| !less(key_of(c), &cutoff)) {
        Some(taken) => from + taken,
        None => changes.len(),
    }
}

// Whether a leaf is loaded: it takes a change, or records wait for a merge.
pub fn is_loaded(at: RowAt, to: usize) -> bool
    ensures { result ≡ is_loaded at to }
{
    (at.change < to) | at.waiting.is_some()
}

// ---- its page

// The page of a leaf; that of a row without leaves has no bytes.
fn page_in(leaf: LeafAt, pages: &[u8]) -> &[u8]
    requires { PageThere leaf pages.now }
    ensures { result.now ≡ page_in leaf pages.entry.now }
{
    let Some(from) = leaf.page else {
        return &[];
    };
    &pages[from..from + PAGE_SIZE]
}

// ---- copied

// A leaf that takes no change, and that no merge asks for, is copied over with its separator.
pub fn copy_leaf(
    at: RowAt,
    leaf: LeafAt,
    pages: &[u8],
    area: &mut [u8],
    tickets: &mut [u8],
) -> RowAt
    requires { CopyThere at leaf pages.now area.old tickets.old }
    ensures { LeafCopied at leaf pages.now area.old tickets.old result area.new tickets.new }
{
    copy_in(page_in(leaf, pages), area, at.leaves * PAGE_SIZE);
    let last = link(tickets, at.leaves, &at.last, &leaf.separator);
    RowAt {
        leaves: at.leaves + 1,
        last,
        waiting: None,
        ..at
    }
}

// ---- loaded

// The base of a leaf: its page; that of a row without leaves has no records.
fn base_of(leaf: LeafAt, pages: &[u8]) -> LeafNode<'_>
    requires { BaseThere leaf pages.now }
    ensures { result.page.now ≡ page_in leaf pages.entry.now }
{
    let page = page_in(leaf, pages);
    if leaf.page.is_none() {
        return LeafNode::ignored();
    }
    LeafNode {
        page,
        n: count_of(page),
    }
}

// The work of a leaf that is loaded: the next base of what waits, or opened.
pub fn begin_leaf(at: RowAt, leaf: LeafAt, page: &[u8], room: Room) -> Result<Work, Refusal>
    requires { Begins at page.now room.entries room.bytes }
    ensures { LeafBegun at leaf page.now room.entries room.bytes result }
{
    let cutoff = leaf.cutoff.as_ref();
    let Some(work) = at.waiting else {
        let separator = leaf.page.is_some().then_some(&leaf.separator);
        return Ok(fresh_work(false, separator, cutoff));
    };
    follows_verdict(&work, page, &leaf.separator, room)?;
    Ok(next_base_work(&work, &leaf.separator, cutoff))
}

// Room for the tickets of a digest: 101 leaves, since no list and store hold a body of more than 204,800 bytes.
fn no_tickets() -> [u8; 6565]
    ensures { result ≡ replicate 6565 0 }
{
    [0u8; 6565]
}

// Where the next page stands in the area.
fn area_from(at: RowAt) -> usize
    requires { at.leaves * 4096 < 18446744073709551616 }
    ensures { result ≡ at.leaves * 4096 }
{
    at.leaves * PAGE_SIZE
}

// The leaves that a digest gave are linked to those before them.
fn link_given(at: RowAt, given: Given, work: Work, own: &[u8], tickets: &mut [u8]) -> RowAt
    requires { LinkThere at given.leaves own.now tickets.old }
    ensures { (result ≡ given_by at given work own.now) × (tickets.new ≡ linked_all at.leaves at.last (separators_read given.leaves own.now) tickets.old) }
{
    let last = link_leaves(tickets, at.leaves, &at.last, own, given.leaves);
    RowAt {
        leaves: at.leaves + given.leaves,
        last,
        waiting: given.cutoff.is_some().then_some(work),
        ..at
    }
}

// A digest of what is pending, its leaves behind those of the new row.
fn digest_leaf(
    at: RowAt,
    loaded: LoadedLeaf,
    list: &mut [Entry],
    store: &mut [u8],
    area: &mut [u8],
    tickets: &mut [u8],
) -> RowAt
    requires { DigestThere at loaded.work list.old store.old loaded.node.page.now area.old tickets.old }
    ensures { LeafDigested at loaded.entry list.old store.old area.old tickets.old result list.new store.new area.new tickets.new }
{
    let from = area_from(at);
    let mut own = no_tickets();
    let mut work = loaded.work;
    let given = digest_ready(
        &mut work,
        list,
        store,
        loaded.node,
        &mut area[from..],
        &mut own,
        PAGE,
    );
    link_given(at, given, work, &own, tickets)
}

// Loads a leaf: its changes are taken, and what is pending then is digested.
pub fn load_leaf(
    turn: Turn,
    list: &mut [Entry],
    store: &mut [u8],
    lent: LentRow,
    area: &mut [u8],
    tickets: &mut [u8],
) -> Result<RowAt, Refusal>
    requires { LoadAsked turn list.old store.old lent area.old tickets.old }
    ensures { LoadGiven turn list.old store.old lent.entry area.old tickets.old result list.new store.new area.new tickets.new }
{
    let at = turn.at;
    let node = base_of(turn.leaf, lent.row.pages);
    let begun = begin_leaf(at, turn.leaf, node.page, Room::of(list, store))?;
    let changes = &lent.changes[at.change..turn.to];
    let taken = take_changes(begun, list, store, node, changes, &lent.values[at.value..])?;
    let behind = RowAt {
        change: turn.to,
        value: at.value + taken.value,
        ..at
    };
    let loaded = LoadedLeaf {
        work: taken.work,
        node,
    };
    Ok(digest_leaf(behind, loaded, list, store, area, tickets))
}
