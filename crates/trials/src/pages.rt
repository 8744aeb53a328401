// The trials of leaf pages.
ghost use Rattle.std.specs.Prelude.{◌<◌};

use crate::line::{close, say_reply};
use leaf_updater::{leaf_page_check, leaf_page_get, leaf_page_rebuild};
use std::io;

fn put(page: &mut [u8; 4096], at: usize, x: u8) {
    if at < 4096 {
        page[at] = x;
    }
}

// Where pointer i begins.
fn pointer(i: u8) -> usize
    ensures { result < 10000 }
{
    34 * usize::from(i) + 2
}

// A page of n records with rising keys and empty values: each offset is the page's end, number bytes 00 10.
fn empty_values(n: u8) -> [u8; 4096] {
    let mut page = [0u8; 4096];
    page[0] = n;
    for i in 0..n {
        put(&mut page, pointer(i), i);
        put(&mut page, pointer(i) + 33, 0x10);
    }
    page
}

// Two flagged records with empty values.
pub(crate) fn flagged_pair() -> [u8; 4096] {
    let mut page = empty_values(2);
    page[35] = 0x90;
    page[69] = 0x90;
    page
}

fn check_trial(rt: &impl Print, label: &str, page: &[u8; 4096], refusal: u8) -> io::Result<()> {
    print!(rt; "{label:<45}")?;
    let reply = leaf_page_check(page);
    say_reply(rt, reply)?;
    close(rt, reply == refusal)
}

// A page of n records.
fn count_trial(rt: &impl Print, label: &str, n: u8, refusal: u8) -> io::Result<()> {
    check_trial(rt, label, &empty_values(n), refusal)
}

// A page of one record whose value starts at byte 256 * 10 + low.
fn value_trial(rt: &impl Print, label: &str, low: u8, refusal: u8) -> io::Result<()> {
    let mut page = empty_values(1);
    page[34] = low;
    page[35] = 0x0a;
    check_trial(rt, label, &page, refusal)
}

// What building a page answers, and the number bytes of its first record.
#[derive(Clone, Copy)]
struct Built {
    reply: u8,
    low: u8,
    high: u8,
}

// The second of two records, built as a page of its own: by a cell where `mid` is 2, as a chunk where it is 1.
fn build(page: &[u8; 4096], mid: usize) -> Built {
    let mut out = [0xeeu8; 4096];
    let reply = leaf_page_rebuild(page, 1, mid, 2, &mut out);
    Built {
        reply,
        low: out[34],
        high: out[35],
    }
}

fn is_built(page: Built, high: u8) -> bool {
    (page.reply == 0) & ((page.low == 0) & (page.high == high))
}

// The number bytes of an empty value, by both ways of building.
fn number_trial(rt: &impl Print, label: &str, high: u8) -> io::Result<()> {
    print!(rt; "{label:<45}")?;
    let mut page = empty_values(2);
    page[69] = high;
    let cell = build(&page, 2);
    let chunk = build(&page, 1);
    let (low, first) = (cell.low, cell.high);
    print!(rt; "{low:02x} {first:02x}")?;
    close(rt, is_built(cell, high) & is_built(chunk, high))
}

// Where a key that no record has would stand among n records whose first key bytes are 0 to n - 1.
fn position_trial(
    rt: &impl Print,
    label: &str,
    n: u8,
    first: u8,
    position: usize,
) -> io::Result<()> {
    print!(rt; "{label:<45}")?;
    let mut key = [0u8; 32];
    key[0] = first;
    key[31] = 1;
    let reply = leaf_page_get(&empty_values(n), &key);
    let found = reply.position;
    print!(rt; "absent, position {found}")?;
    close(
        rt,
        (reply.refusal == 0) & ((reply.absent == 1) & (reply.position == position)),
    )
}

pub(crate) fn run(rt: &impl Print) -> io::Result<()> {
    number_trial(rt, "* one empty value, number bytes", 0x10)?;
    number_trial(rt, "* the same, flagged", 0x90)?;
    count_trial(rt, "  page with n 120", 120, 0)?;
    count_trial(rt, "  page with n 121", 121, 2)?;
    value_trial(rt, "  page value of 1,332", 0xcc, 0)?;
    value_trial(rt, "  page value of 1,333", 0xcb, 4)
}

// Document 02, M-102.
pub(crate) fn positions(rt: &impl Print) -> io::Result<()> {
    position_trial(rt, "M-102: absent key in an empty page", 0, 5, 0)?;
    position_trial(rt, "M-102: absent key between records 5 and 6", 120, 5, 6)?;
    position_trial(rt, "M-102: absent key behind 120 records", 120, 200, 120)
}
