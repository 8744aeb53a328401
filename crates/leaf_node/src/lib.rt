// Leaf pages: the check of a page, the parts of its records, and the key search.
// Ported from nomt/src/beatree/leaf/node.rs of thrumdev/nomt: `LeafNode`. The layout, as it stands over the Rust:
//
//     n: u16
//     cell_pointers: [(key ++ offset); n]
//     padding: [u8] // empty space between cell_pointers and cells
//     cells: [Cell; n]
//     value cell: [u8]
//     overflow cell: (u64, u256, [NodePointer]) | semantically, (value_size, value_hash, [NodePointer]).
//
//     | n | [(key ++ offset); n] | ----  | [[u8]; n] |
//
// A key has 32 bytes, an offset 2, whose high bit is set for an overflow cell. A value ends where the next begins.
#![tactic(auto)]

ghost use Rattle.std.specs.Prelude.{◌≡◌, ◌+◌, ◌-◌, ◌^◌, ◌≤◌, ◌<◌, length};
ghost use Rattle.refusal.specs.Numbers.{number_of};
ghost use Rattle.leaf_node.specs.Page.{word, count, pointer, key_at, number_at, offset_at, start, values_size};
ghost use Rattle.leaf_node.specs.Good.{offsets_right, values_fit, keys_rise, page_verdict};
ghost use Rattle.leaf_node.specs.Search.{place_from, search_of};
ghost use Rattle.leaf_node.specs.Cell.{CellOf};
ghost use Rattle.leaf_node.specs.Build.{put};
ghost use Rattle.leaf_node.specs.Steps.{Pointed, Readable, Laid, Sorted};

mod records;
mod size;

use bit_ops::{bytes_from, less};
pub use records::LeafNode;
use refusal::Refusal;
pub use size::Size;

// The page size of the calls and of a row's turns; every other function takes the size that the page has.
pub const PAGE_SIZE: usize = 4096;

pub const PAGE: Size = Size { bytes: PAGE_SIZE };

// Where a value lies in its page, and its overflow flag.
#[derive(Clone, Copy)]
pub struct Cell {
    pub offset: usize,
    pub len: usize,
    pub flag: bool,
}

// ---- reading the parts of a page

// The 16-bit number at byte `at`, low byte first.
fn word_at(page: &[u8], at: usize) -> usize
    requires { at + 1 < length page.now }
    ensures { (result ≡ word page.now at) × (result < 65536) }
{
    usize::from(u16::from_le_bytes(*bytes_from(page, at)))
}

// The number of records.
pub fn count_of(page: &[u8]) -> usize
    requires { 2 ≤ length page.now }
    ensures { (result ≡ count page.now) × (result < 65536) }
{
    word_at(page, 0)
}

// The 16-bit number of pointer i: flag and offset.
pub fn number_at(page: &[u8], i: usize) -> usize
    requires { pointer (i + 1) ≤ length page.now }
    ensures { (result ≡ number_at page.now i) × (result < 65536) }
{
    word_at(page, 34 * i + 2 + 32)
}

// The offset of pointer i.
fn offset_at(page: &[u8], i: usize) -> usize
    requires { pointer (i + 1) ≤ length page.now }
    ensures { (result ≡ offset_at page.now i) × (result < 32768) }
{
    number_at(page, i) % 32768
}

// Where value i of n begins, which is where value i - 1 ends. The page stands beside its count, as in the check and the search below: a
// page that is asked may not be known to be a `LeafNode` yet.
pub fn start_at(page: &[u8], n: usize, i: usize) -> usize
    requires { (Pointed page.now n) × (i ≤ n) }
    ensures { (result ≡ start page.now i) × (result < 2 ^ 63) }
{
    if i < n {
        offset_at(page, i)
    } else {
        page.len()
    }
}

// Key i, as a part of the page.
pub fn key_at(page: &[u8], i: usize) -> &[u8; 32]
    requires { pointer (i + 1) ≤ length page.now }
    ensures { result.now ≡ key_at page.now i }
{
    let at = 34 * i + 2;
    bytes_from(page, at)
}

// Value i: offset, length and flag.
pub fn cell_at(page: &[u8], i: usize) -> Cell
    requires { Readable page.now i }
    ensures { CellOf page.now i result }
{
    let n = count_of(page);
    let from = start_at(page, n, i);
    let to = start_at(page, n, i + 1);
    let number = number_at(page, i);
    Cell {
        offset: from,
        len: to - from,
        flag: 32768 <= number,
    }
}

// ---- the check of a page, rule by rule

// Offsets never fall, the first lies behind the pointers, and none passes the page's end.
fn offsets_right(page: &[u8], n: usize) -> bool
    requires { Pointed page.now n }
    ensures { result ≡ offsets_right page.now }
{
    let mut low = 34 * n + 2;
    for i in 0..n {
        let offset = offset_at(page, i);
        if offset < low {
            return false;
        }
        if page.len() < offset {
            return false;
        }
        low = offset;
    }
    true
}

// No value is longer than a page of `size` bytes allows.
fn values_fit(page: &[u8], n: usize, size: Size) -> bool
    requires { Pointed page.now n }
    ensures { result ≡ values_fit size.bytes page.now }
{
    let most = size.value_limit();
    for i in 0..n {
        if start_at(page, n, i) + most < start_at(page, n, i + 1) {
            return false;
        }
    }
    true
}

// Each key is below the next.
fn keys_rise(page: &[u8], n: usize) -> bool
    requires { Pointed page.now n }
    ensures { result ≡ keys_rise page.now }
{
    for i in 1..n {
        if !less(key_at(page, i - 1), key_at(page, i)) {
            return false;
        }
    }
    true
}

// The lowest refusal that a page earns as one of this size.
pub fn verdict(page: &[u8], size: Size) -> Result<(), Refusal>
    ensures { number_of result ≡ page_verdict size.bytes page.now }
{
    if page.len() != size.bytes {
        return Err(Refusal::PageLength);
    }
    let n = count_of(page);
    if size.record_limit() < n {
        return Err(Refusal::TooManyRecords);
    }
    if !offsets_right(page, n) {
        return Err(Refusal::BadOffsets);
    }
    if !values_fit(page, n, size) {
        return Err(Refusal::LongPageValue);
    }
    if !keys_rise(page, n) {
        return Err(Refusal::KeysNotRising);
    }
    Ok(())
}

// The check of a page.
pub fn check(page: &[u8]) -> Result<(), Refusal>
    ensures { number_of result ≡ page_verdict 4096 page.now }
{
    verdict(page, PAGE)
}

// ---- parts of bytes

// Copies all of src into dst, from index `at` on. A loop, since the library's copy of a length that isn't known is a call of memmove.
pub fn copy_in(src: &[u8], dst: &mut [u8], at: usize)
    requires { at + length src.now ≤ length dst.old }
    ensures { dst.new ≡ put dst.old at src.now }
{
    for j in 0..src.len() {
        dst[at + j] = src[j];
    }
}

// The value bytes of records `from` up to `to`: their values lie one after the other. The method's body, and public for pages that callers
// know less of than a `LeafNode` says.
pub fn size_between(page: &[u8], n: usize, from: usize, to: usize) -> usize
    requires { (Laid page.now n) × (from ≤ to) × (to ≤ n) }
    ensures { (result ≡ values_size page.now from to) × (result ≤ length page.now) }
{
    start_at(page, n, to) - start_at(page, n, from)
}

// ---- the key search

// The first of the records from `from` on whose key isn't below `key`, or n. It halves: lo and hi bracket the answer,
// and each turn halves hi - lo. Keys lie in a page at pointers' places, so that they are no slice for `partition_point`.
fn place_from(page: &[u8], n: usize, from: usize, key: &[u8; 32]) -> usize
    requires { (Sorted page.now n) × (from ≤ n) }
    ensures { (result ≡ place_from page.now (n - from) from key.now) × (result ≤ n) }
{
    let mut lo = from;
    let mut hi = n;
    while lo < hi {
        let mid = lo + (hi - lo) / 2;
        if less(key_at(page, mid), key) {
            lo = mid + 1;
        } else {
            hi = mid;
        }
    }
    lo
}

// Where a key stands among the records from `from` on: at an index, or absent, with the index at which it would stand, as a
// slice's `binary_search` has it. Rising keys make one place of it.
pub fn search(page: &[u8], n: usize, from: usize, key: &[u8; 32]) -> Result<usize, usize>
    requires { (Sorted page.now n) × (from ≤ n) }
    ensures { result ≡ search_of page.now from key.now }
{
    let i = place_from(page, n, from, key);
    if n <= i {
        return Err(i);
    }
    if less(key, key_at(page, i)) {
        return Err(i);
    }
    Ok(i)
}
