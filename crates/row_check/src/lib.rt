// Document 02, M-101: what refuses a row of pages with their separators, and its changes.
#![tactic(auto)]

ghost use Rattle.std.specs.Prelude.{◌≡◌, ◌*◌, ◌<◌, length};
ghost use Rattle.refusal.specs.Numbers.{number_of};
ghost use Rattle.row_changes.specs.Tests.{put_bodies};
ghost use Rattle.row_check.specs.Steps.{leaf_verdict, pages_lent, WholeRow, LeafThere};
ghost use Rattle.row_check.specs.Verdict as says;
ghost use Rattle.row_check.specs.Verdict.{row_of, whole_pages, leaves_verdict, short_from_zero, lent_row_verdict, row_has_pages, call_verdict, row_verdict};

use leaf_base::base_verdict;
use leaf_check::room_right;
use leaf_node::Size;
use leaf_pass::is_zero_key;
use leaf_work::Room;
use refusal::Refusal;
use row_changes::{LeafChange, bodies_within, keys_rise, lengths_fit, values_there};

// How long what a row call is lent is, where that is all that is asked of it.
#[derive(Clone, Copy)]
pub struct Lengths {
    pub room: Room,
    pub values: usize,
    pub area: usize,
    pub tickets: usize,
}

// A row as calls are lent it: its pages, one behind the other, and their separators.
#[derive(Clone, Copy)]
pub struct Row<'a> {
    pub pages: &'a [u8],
    pub separators: &'a [[u8; 32]],
}

// The most pages of a row.
pub const MOST_LEAVES: usize = 16;

// ---- Nos. 1 to 6

// Whether there are as many whole pages as separators.
fn whole_pages(pages: usize, separators: usize, size: Size) -> bool
    ensures { result ≡ whole_pages size.bytes pages separators }
{
    (pages % size.bytes == 0) & (pages / size.bytes == separators)
}

// The lower of two refusals, where there are two.
fn lower(v: Result<(), Refusal>, w: Result<(), Refusal>) -> Result<(), Refusal>
    ensures { number_of result ≡ says.lower (number_of v) (number_of w) }
{
    let Err(first) = v else { return w };
    let Err(second) = w else { return v };
    if u8::from(second) < u8::from(first) {
        return w;
    }
    v
}

// Nos. 2 to 6 of leaf i, whose cutoff is the next separator.
fn leaf_verdict(row: Row, i: usize, size: Size) -> Result<(), Refusal>
    requires { LeafThere size.bytes row.pages.now row.separators.now i }
    ensures { number_of result ≡ leaf_verdict size.bytes row.entry.pages.now row.entry.separators.now i }
{
    let from = i * size.bytes;
    let to = from + size.bytes;
    let cutoff = row.separators.get(i + 1);
    base_verdict(&row.pages[from..to], &row.separators[i], cutoff, size)?;
    Ok(())
}

// Nos. 2 to 6 of all leaves: the lowest number over all of them.
fn leaves_verdict(row: Row, size: Size) -> Result<(), Refusal>
    requires { WholeRow size.bytes row.pages.now row.separators.now }
    ensures { number_of result ≡ leaves_verdict size.bytes 0 (row_of size.bytes row.entry.pages.now row.entry.separators.now) }
{
    let mut lowest = Ok(());
    for i in 0..row.separators.len() {
        lowest = lower(lowest, leaf_verdict(row, i, size));
    }
    lowest
}

// ---- No. 18

// Whether a row has at most 16 pages and starts at zero.
fn short_from_zero(separators: &[[u8; 32]]) -> bool
    ensures { result ≡ short_from_zero separators.now }
{
    if separators.len() == 0 {
        return true;
    }
    if MOST_LEAVES < separators.len() {
        return false;
    }
    is_zero_key(&separators[0])
}

// What refuses a row alone: Nos. 1 to 6, and 18.
pub fn lent_row_verdict(row: Row, size: Size) -> Result<(), Refusal>
    ensures { number_of result ≡ lent_row_verdict size.bytes row.entry.pages.now row.entry.separators.now }
{
    if !whole_pages(row.pages.len(), row.separators.len(), size) {
        return Err(Refusal::PageLength);
    }
    leaves_verdict(row, size)?;
    if !short_from_zero(row.separators) {
        return Err(Refusal::LongRow);
    }
    Ok(())
}

// ---- the row call

// How many pages area and ticket buffer have room for.
fn pages_lent(area: usize, tickets: usize, size: Size) -> usize
    ensures { result ≡ pages_lent size.bytes area tickets }
{
    (area / size.bytes).min(tickets / 65)
}

// No. 17: whether there is room for twice the n old pages, and for a page for each 2,047 of what is inserted.
fn has_pages(n: usize, changes: &[LeafChange], area: usize, tickets: usize, size: Size) -> bool
    requires { n * size.bytes < 18446744073709551616 }
    ensures { result ≡ row_has_pages size.bytes n (put_bodies changes.now) area tickets }
{
    let pages = pages_lent(area, tickets, size);
    if pages < 2 * n {
        return false;
    }
    bodies_within(changes, (pages - 2 * n) * size.merge_below())
}

// Nos. 7, 10, 12, 13, 17 and 18.
fn call_verdict(
    lent: Lengths,
    separators: &[[u8; 32]],
    changes: &[LeafChange],
    size: Size,
) -> Result<(), Refusal>
    requires { length separators.now * size.bytes < 18446744073709551616 }
    ensures { number_of result ≡ call_verdict size.bytes lent.room.entries lent.room.bytes separators.now changes.now lent.values lent.area lent.tickets }
{
    if !room_right(lent.room, size) {
        return Err(Refusal::RoomLength);
    }
    if !values_there(changes, lent.values) {
        return Err(Refusal::NoSuchIndex);
    }
    if !lengths_fit(changes, size.value_limit()) {
        return Err(Refusal::LongValue);
    }
    if !keys_rise(changes) {
        return Err(Refusal::KeyTooLow);
    }
    if !has_pages(separators.len(), changes, lent.area, lent.tickets, size) {
        return Err(Refusal::ShortArea);
    }
    if !short_from_zero(separators) {
        return Err(Refusal::LongRow);
    }
    Ok(())
}

// What refuses a row and its changes before any turn is taken.
pub fn row_verdict(
    lent: Lengths,
    row: Row,
    changes: &[LeafChange],
    size: Size,
) -> Result<(), Refusal>
    ensures { number_of result ≡ row_verdict size.bytes lent.room.entries lent.room.bytes row.entry.pages.now row.entry.separators.now changes.now lent.values lent.area lent.tickets }
{
    if !whole_pages(row.pages.len(), row.separators.len(), size) {
        return Err(Refusal::PageLength);
    }
    leaves_verdict(row, size)?;
    call_verdict(lent, row.separators, changes, size)
}
