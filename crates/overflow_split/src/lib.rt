// Document 02, M-105: a large value split into overflow pages. Ported from nomt/src/beatree/ops/overflow.rs of thrumdev/nomt: `chunk`. The caller lends the numbers that
// the Rust allocates, and one area for the pages, in `chunk`'s order.
#![tactic(auto)]

ghost use Rattle.std.specs.Prelude.{◌≡◌, ◌++◌, ◌+◌, ◌*◌, ◌≤◌, ◌<◌, length, IfOk};
ghost use Rattle.refusal.specs.Numbers.{number_of};
ghost use Rattle.leaf_node.specs.Build.{put};
ghost use Rattle.leaf_model.specs.Basics.{joined};
ghost use Rattle.overflow.specs.Count.{page_count};
ghost use Rattle.overflow.specs.Written.{low_bytes, page_of, pages_of};
ghost use Rattle.overflow.specs.Verdict.{split_verdict};
ghost use Rattle.overflow.specs.Outcome.{split_of};
ghost use Rattle.overflow.specs.Reply.{split_out};

use leaf_builder::clear_between;
use leaf_node::copy_in;
use overflow::{
    Encoded, LeafSplit, PageCount, encode_cell, in_cell, page_count, put_numbers, shape_at,
};
use refusal::Refusal;

// A page's head: how many numbers, how many bytes.
fn put_head(area: &mut [u8], at: usize, numbers: usize, bytes: usize)
    requires { (at + 4 ≤ length area.old) × (numbers < 65536) × (bytes < 65536) }
    ensures { area.new ≡ put area.old at (low_bytes 2 numbers ++ low_bytes 2 bytes) }
{
    copy_in(&(numbers as u16).to_le_bytes(), area, at);
    copy_in(&(bytes as u16).to_le_bytes(), area, at + 2);
}

// One page from index `at` on: its head, these numbers, these bytes, zeros.
fn put_page(area: &mut [u8], at: usize, numbers: &[u32], bytes: &[u8])
    requires { (at + 4096 ≤ length area.old) × (4 * length numbers.now + length bytes.now ≤ 4092) }
    ensures { area.new ≡ put area.old at (page_of numbers.now bytes.now) }
{
    put_head(area, at, numbers.len(), bytes.len());
    put_numbers(area, at + 4, numbers);
    let from = at + 4 + 4 * numbers.len();
    copy_in(bytes, area, from);
    clear_between(area, from + bytes.len(), at + 4096);
}

// All pages of a value, one behind the other: of the numbers and bytes as many as are left and fit. `n` numbers and `from` bytes stand in the pages before page i.
fn chunk(value: &[u8], numbers: &[u32], pages: PageCount, area: &mut [u8])
    requires { 4096 * pages.0 ≤ length area.old }
    ensures { area.new ≡ put area.old 0 (joined (pages_of pages.0 numbers.now value.now)) }
{
    let mut n = 0;
    let mut from = 0;
    for i in 0..pages.0 {
        let shape = shape_at(numbers.len() - n, value.len() - from);
        let last = n + shape.numbers;
        let to = from + shape.bytes;
        put_page(area, 4096 * i, &numbers[n..last], &value[from..to]);
        n = last;
        from = to;
    }
}

// How many pages a value takes: No. 21 of the value, then No. 22 of the numbers and the area.
fn split_verdict(len: usize, numbers: usize, area: usize) -> Result<PageCount, Refusal>
    ensures number { number_of result ≡ split_verdict len numbers area }
    ensures count { IfOk result (λ t. t.0 ≡ page_count len) }
{
    let pages = page_count(len)?;
    if (pages.0 <= numbers) & (4096 * pages.0 <= area) {
        return Ok(pages);
    }
    Err(Refusal::ShortBuffer)
}

// Splits into the front of the area, where nothing refuses it. Answers the cell and the page count.
fn split_value(
    value: &[u8],
    hash: &[u8; 32],
    numbers: &[u32],
    area: &mut [u8],
) -> Result<Encoded, Refusal>
    ensures value { split_out result ≡ (split_of value.now hash.now numbers.now area.old).reply }
    ensures area_after { area.new ≡ (split_of value.now hash.now numbers.now area.old).area }
{
    let pages = split_verdict(value.len(), numbers.len(), area.len())?;
    let first = in_cell(pages);
    let cell = encode_cell(value.len(), hash, &numbers[..first]);
    chunk(value, &numbers[first..pages.0], pages, area);
    Ok(Encoded {
        cell,
        cell_len: 40 + 4 * first,
        pages,
    })
}

// The split call: cell and page count, and the pages in the front of the area.
pub fn split(value: &[u8], hash: &[u8; 32], numbers: &[u32], area: &mut [u8]) -> LeafSplit
    ensures value { result ≡ (split_of value.now hash.now numbers.now area.old).reply }
    ensures area_after { area.new ≡ (split_of value.now hash.now numbers.now area.old).area }
{
    LeafSplit::from(split_value(value, hash, numbers, area))
}
