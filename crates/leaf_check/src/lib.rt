// Soundness of a work, and Nos. 1 to 8 of what a call is lent: one pass over the list, one over the unused bytes of the store.
#![tactic(auto)]

ghost use Rattle.std.specs.Prelude.{◌≡◌, ◌&&◌, ◌||◌, ◌≤◌, ◌<◌, length, IfOk};
ghost use Rattle.refusal.specs.Refusal.{accepted};
ghost use Rattle.refusal.specs.Numbers.{number_of};
ghost use Rattle.leaf_node.specs.Page.{count};
ghost use Rattle.leaf_model.specs.Work.{above_last, below_cutoff};
ghost use Rattle.leaf_work.specs.Tests.{implies, is_zero};
ghost use Rattle.leaf_work.specs.Lent.{cutoff_of, last_of, separator_of, regarded, room_right};
ghost use Rattle.leaf_work.specs.Sound.{lets_in, known_turn, known_flags, last_below, cutoff_right, floor_above, floor_at_turn, absent_zero, sound};
ghost use Rattle.leaf_work.specs.Verdict.{lent_page_verdict, lent_verdict, closed_verdict};
ghost use Rattle.leaf_pass.specs.Pass.{Seeing, begun};
ghost use Rattle.leaf_check.specs.Settled.{Regardable, bounds_of, listed_right, waiting_fits, turn_right, room_for, rest_right, pass_right, record_right, entries_sound};

use bit_ops::less;
use leaf_base::{MOST_ENTRIES, MOST_STORE_BYTES, keys_verdict};
use leaf_node::{LeafNode, Size};
use leaf_pass::{Bounds, Pass, Sight, Tally, is_zero_key, same_key, zeros_from};
use leaf_work::{Entry, Room, Work, is_below};
use refusal::Refusal;

// ---- small tests

fn implied(a: bool, b: bool) -> bool
    ensures { result ≡ implies a b }
{
    !a | b
}

// ---- the work record alone

// Whether the last key taken is below the cutoff.
fn last_below(work: &Work) -> bool
    ensures { result ≡ last_below work.now }
{
    match work.last_taken() {
        Some(last) => is_below(last, work.cutoff()),
        None => true,
    }
}

// Whether a cutoff comes with a base and is above its separator.
fn cutoff_right(work: &Work) -> bool
    ensures { result ≡ cutoff_right work.now }
{
    match work.cutoff() {
        Some(cutoff) => (work.based != 0) & less(&work.latest, cutoff),
        None => true,
    }
}

// Whether turn, mode and flags are listed ones, and the cutoff is where it must be.
fn marks_right(work: &Work) -> bool
    ensures { let w = work.now in result ≡ (known_turn w && (known_flags w && (last_below w && cutoff_right w))) }
{
    let turn = (work.is_open() | work.is_waiting()) | work.is_done();
    let flags = (work.based <= 1) & ((work.cut <= 1) & ((work.over <= 1) & (work.taken <= 1)));
    let marks = (work.mode <= 1) & flags;
    turn & (marks & (last_below(work) & cutoff_right(work)))
}

// Whether the floor is where the turn has it.
fn floor_right(work: &Work) -> bool
    ensures { result ≡ (floor_above work.now && floor_at_turn work.now) }
{
    let above = !less(&work.floor, &work.separator()) & !less(&work.floor, &work.latest);
    let based = implied(work.reads_base(), same_key(&work.floor, &work.latest));
    let waiting = implied(work.is_waiting(), same_key(&work.floor, &work.cutoff));
    above & (based & waiting)
}

// Whether absent keys are zeros.
fn absent_zero(work: &Work) -> bool
    ensures { result ≡ absent_zero work.now }
{
    let one = implied(work.cut == 0, is_zero_key(&work.cutoff));
    let two = implied(work.over == 0, is_zero_key(&work.overriding));
    let three = implied(work.taken == 0, is_zero_key(&work.last));
    one & (two & three)
}

pub fn record_right(work: &Work) -> bool
    ensures { result ≡ record_right work.now }
{
    marks_right(work) & (floor_right(work) & absent_zero(work))
}

// ---- what the entries come to

// Whether No. 13 lets a key in.
pub fn lets_in(work: Work, key: &[u8; 32]) -> bool
    ensures { result ≡ lets_in work key.now }
{
    !less(key, &work.floor) & above_last(&work, key)
}

// Whether a key is above the last one taken.
fn above_last(work: &Work, key: &[u8; 32]) -> bool
    ensures { result ≡ above_last (last_of work.now) key.now }
{
    match work.last_taken() {
        Some(last) => less(last, key),
        None => true,
    }
}

// Whether the values end where the work record says, the gauge agrees, and the last listed key is not let in.
fn listed_right(work: &Work, tally: &Tally) -> bool
    ensures { result ≡ listed_right work.now tally.now }
{
    let gauge = (work.count == tally.count)
        & ((work.bytes == tally.bytes) & ((tally.count == 0) | !lets_in(*work, &tally.last)));
    (work.filled == tally.end) & gauge
}

// Whether the last listed key is below the cutoff.
fn listed_below(work: &Work, tally: &Tally) -> bool
    ensures { result ≡ (is_zero tally.now.count || below_cutoff (cutoff_of work.now) tally.now.last) }
{
    (tally.count == 0) | is_below(&tally.last, work.cutoff())
}

pub fn begin(work: &Work) -> Pass
    ensures { result.tally ≡ begun (separator_of work.now) }
{
    let tally = Tally {
        seen: 0,
        inserts: 0,
        end: 0,
        count: 0,
        bytes: 0,
        last: work.separator(),
    };
    Pass { tally }
}

// A work whose entries are tested, and the base as it regards it.
#[derive(Clone, Copy)]
struct Tested<'a> {
    work: &'a Work,
    node: LeafNode<'a>,
    size: Size,
    ghost seeing: { Seeing (bounds_of size.bytes work.now) node.n },
}

impl<'a> Tested<'a> {
    // What the entries are held against.
    fn sight(self) -> Sight<'a>
        ensures { (result.bounds ≡ bounds_of self.entry.size.bytes self.entry.work.now) × (result.node.page.now ≡ self.entry.node.page.now) }
    {
        let bounds = Bounds {
            used: self.work.used,
            filled: self.work.filled,
            low: self.work.low,
            most: self.size.value_limit(),
        };
        Sight {
            bounds,
            node: self.node,
        }
    }

    // Whether a waiting work has inserts alone, override, cutoff, and a body that asks for a merge.
    fn waiting_fits(self, pass: Pass) -> bool
        ensures { result ≡ waiting_fits self.entry.size.bytes self.entry.work.now pass.tally }
    {
        let body = 34 * pass.tally.count + pass.tally.bytes;
        let keys = (self.work.over != 0) & (self.work.cut != 0);
        (pass.tally.inserts == self.work.used)
            & (keys & ((0 < body) & (body < self.size.merge_below())))
    }

    // Whether override, waiting and done have what they must.
    fn turn_right(self, pass: Pass) -> bool
        ensures { result ≡ turn_right self.entry.size.bytes self.entry.work.now pass.tally self.entry.node.n }
    {
        let tally = pass.tally;
        let over = implied(self.work.over != 0, 0 < tally.inserts);
        let waiting = implied(self.work.is_waiting(), self.waiting_fits(pass));
        let done = implied(
            self.work.is_done(),
            (tally.count == 0) & (self.node.n <= self.work.low),
        );
        over & (waiting & done)
    }

    // Whether there is room for what is pending.
    fn room_for(self, pass: Pass, room: Room) -> bool
        ensures { result ≡ room_for self.entry.work.now pass.tally self.entry.node.page.now room.entries room.bytes }
    {
        let low = self.work.low;
        let rest = self.node.size_between(low, self.node.n);
        (pass.tally.count + (self.node.n - low) <= room.entries)
            & (pass.tally.bytes + rest <= room.bytes)
    }

    // Whether the base's rest stands behind the list and above the last key taken, and the last pending key below the cutoff.
    fn rest_right(self, tally: &Tally) -> bool
        ensures { result ≡ rest_right self.entry.work.now tally.now self.entry.node.page.now }
    {
        let work = self.work;
        if self.node.n <= work.low {
            return listed_below(work, tally);
        }
        let first = self.node.key(work.low);
        let end = self.node.key(self.node.n - 1);
        tally.is_behind(first) & (above_last(work, first) & is_below(end, work.cutoff()))
    }

    // Whether the entries come to what the work record says.
    fn is_pass_right(self, pass: Pass, room: Room) -> bool
        ensures { let w = self.entry.work.now in result ≡ pass_right self.entry.size.bytes w pass.tally self.entry.node.page.now room.entries room.bytes }
    {
        let rest = self.room_for(pass, room) & self.rest_right(&pass.tally);
        listed_right(self.work, &pass.tally) & (self.turn_right(pass) & rest)
    }

    // Whether the entries are right one by one, and come to what the work record says.
    fn entries_sound(self, list: &[Entry], store: &[u8]) -> bool
        ensures { let w = self.entry.work.now in result ≡ entries_sound self.entry.size.bytes w list.now self.entry.node.page.now (length store.now) }
    {
        let Some(pass) = self.sight().pass_list(begin(self.work), list) else {
            return false;
        };
        self.is_pass_right(pass, Room::of(list, store))
    }
}

// ---- all of it

// Whether a work is sound, with the page as the work regards it.
pub fn is_sound(work: Work, list: &[Entry], store: &[u8], node: LeafNode, size: Size) -> bool
    requires { (Regardable size.bytes node.page.now) × (length list.now ≤ 4096) × (length store.now ≤ 65536) }
    ensures { result ≡ sound size.bytes work list.now store.now node.entry.page.now }
{
    let work = &work;
    if !record_right(work) {
        return false;
    }
    if !((work.used <= list.len()) & ((work.filled <= store.len()) & (work.low <= node.n))) {
        return false;
    }
    if !zeros_from(store, work.filled) {
        return false;
    }
    let tested = Tested { work, node, size };
    tested.entries_sound(list, store)
}

// ---- Nos. 1 to 8

// The lent page as the work regards it, Nos. 1 to 6: one that is ignored has no records.
fn regarded_base<'a>(work: &Work, page: &'a [u8], size: Size) -> Result<LeafNode<'a>, Refusal>
    ensures number { number_of result ≡ lent_page_verdict size.bytes work.now page.now }
    ensures base { IfOk result (λ node. node.page.now ≡ regarded work.now page.now) }
{
    if !work.reads_base() {
        return Ok(LeafNode::ignored());
    }
    keys_verdict(page, &work.latest, work.cutoff(), size)
}

// Whether list and store have as many entries and bytes as a work needs, and no more than it takes.
pub fn room_right(room: Room, size: Size) -> bool
    ensures { result ≡ room_right size.bytes room.entries room.bytes }
{
    let entries = (size.record_limit() < room.entries) & (room.entries <= MOST_ENTRIES);
    entries & (size.bytes <= room.bytes) & (room.bytes <= MOST_STORE_BYTES)
}

// What is lent to a call, Nos. 1 to 8: the base as the work regards it.
pub fn lent_base<'a>(
    work: &Work,
    list: &[Entry],
    store: &[u8],
    page: &'a [u8],
    size: Size,
) -> Result<LeafNode<'a>, Refusal>
    ensures number { number_of result ≡ lent_verdict size.bytes work.now list.now store.now page.now }
    ensures base { IfOk result (λ node. node.page.now ≡ regarded work.now page.now) }
{
    let node = regarded_base(work, page, size)?;
    if !room_right(Room::of(list, store), size) {
        return Err(Refusal::RoomLength);
    }
    if !is_sound(*work, list, store, node, size) {
        return Err(Refusal::Unsound); // with its page
    }
    Ok(node)
}

// Nos. 7 to 9 of a call on a work that isn't open: an open one is refused without testing its soundness.
pub fn closed_verdict(work: &Work, list: &[Entry], store: &[u8], size: Size) -> Result<(), Refusal>
    ensures { number_of result ≡ closed_verdict size.bytes work.now list.now store.now accepted }
{
    if !room_right(Room::of(list, store), size) { // of an open one too
        return Err(Refusal::RoomLength);
    }
    if work.is_open() {
        return Err(Refusal::OutOfTurn);
    }
    if !is_sound(*work, list, store, LeafNode::ignored(), size) {
        return Err(Refusal::Unsound);
    }
    Ok(())
}
