// Document 02, M-105: overflow cells and pages, ported from nomt/src/beatree/ops/overflow.rs of thrumdev/nomt: the page count, a cell's parts, and numbers in bytes.
//
//     cell: value_size: u64, value_hash: [u8; 32], pointers: [PageNumber; 1 to 15]
//     page: n_pointers: u16, n_bytes: u16, pointers: [PageNumber; n_pointers], bytes: [u8; n_bytes], then zeros
#![tactic(auto)]

ghost use Rattle.std.specs.Prelude.{◌≡◌, ◌+◌, ◌*◌, ◌≤◌, ◌<◌, min, length, take, drop, IfOk};
ghost use Rattle.refusal.specs.Numbers.{number_of};
ghost use Rattle.leaf_node.specs.Page.{word};
ghost use Rattle.leaf_node.specs.Build.{put};
ghost use Rattle.overflow.specs.Count.{size_right, page_count};
ghost use Rattle.overflow.specs.Written.{low_bytes, numbers_out, cell_of};
ghost use Rattle.overflow.specs.Read.{low_number, cell_size, numbers_here, bytes_here};
ghost use Rattle.overflow.specs.Verdict.{count_verdict};
ghost use Rattle.overflow.specs.Outcome.{count_of, padded};
ghost use Rattle.overflow.specs.Reply.{pages_out, split_out, joined_out, freed_out};
ghost use Rattle.overflow.specs.Steps.{CellRead};

use bit_ops::bytes_from;
use leaf_node::copy_in;
use refusal::Refusal;

// The number of a page, and how many pages there are: neither is taken for the other.
#[derive(Clone, Copy, Debug, PartialEq, Eq)]
pub struct PageNumber(pub u32);

#[derive(Clone, Copy, Debug, PartialEq, Eq)]
pub struct PageCount(pub usize);

// A page's two counts: how many numbers, how many bytes.
#[derive(Clone, Copy, Debug, PartialEq, Eq)]
pub struct Shape {
    pub numbers: usize,
    pub bytes: usize,
}

// What a cell says that a splitting writes.
#[derive(Clone, Copy, Debug, PartialEq, Eq)]
pub struct Decoded {
    pub size: usize,
    pub pages: PageCount,
}

// What a splitting answers: the cell in the front of 100 bytes, its length, and how many pages were written.
#[derive(Clone, Copy, Debug, PartialEq, Eq)]
pub struct Encoded {
    pub cell: [u8; 100],
    pub cell_len: usize,
    pub pages: PageCount,
}

// The most bytes of a value, and the most numbers of a cell and of a page.
const MAX_OVERFLOW_VALUE_SIZE: usize = 1048576;

const MAX_OVERFLOW_CELL_NODE_POINTERS: usize = 15;

const MAX_PNS: usize = 1023;

// ---- replies

#[repr(C)]
#[derive(Clone, Copy, Debug, PartialEq, Eq)]
pub struct LeafPageCount {
    pub refusal: u8,
    pub pages: usize,
}

impl From<Result<PageCount, Refusal>> for LeafPageCount {
    ghost from_gives = { λ reply out. out ≡ pages_out reply };

    fn from(reply: Result<PageCount, Refusal>) -> LeafPageCount {
        match reply {
            Ok(pages) => LeafPageCount {
                refusal: 0,
                pages: pages.0,
            },
            Err(refusal) => LeafPageCount {
                refusal: u8::from(refusal),
                pages: 0,
            },
        }
    }
}

#[repr(C)]
#[derive(Clone, Copy, Debug, PartialEq, Eq)]
pub struct LeafSplit {
    pub refusal: u8,
    pub cell: [u8; 100],
    pub cell_len: usize,
    pub pages: usize,
}

impl From<Result<Encoded, Refusal>> for LeafSplit {
    ghost from_gives = { λ reply out. out ≡ split_out reply };

    fn from(reply: Result<Encoded, Refusal>) -> LeafSplit {
        match reply {
            Ok(encoded) => {
                let cell = encoded.cell;
                LeafSplit {
                    refusal: 0,
                    cell,
                    cell_len: encoded.cell_len,
                    pages: encoded.pages.0,
                }
            }
            Err(refusal) => LeafSplit {
                refusal: u8::from(refusal),
                cell: [0; 100],
                cell_len: 0,
                pages: 0,
            },
        }
    }
}

#[repr(C)]
#[derive(Clone, Copy, Debug, PartialEq, Eq)]
pub struct LeafJoined {
    pub refusal: u8,
    pub len: usize,
}

impl From<Result<usize, Refusal>> for LeafJoined {
    ghost from_gives = { λ reply out. out ≡ joined_out reply };

    fn from(reply: Result<usize, Refusal>) -> LeafJoined {
        match reply {
            Ok(len) => LeafJoined { refusal: 0, len },
            Err(refusal) => LeafJoined {
                refusal: u8::from(refusal),
                len: 0,
            },
        }
    }
}

#[repr(C)]
#[derive(Clone, Copy, Debug, PartialEq, Eq)]
pub struct LeafFreed {
    pub refusal: u8,
    pub numbers: usize,
}

impl From<Result<usize, Refusal>> for LeafFreed {
    ghost from_gives = { λ reply out. out ≡ freed_out reply };

    fn from(reply: Result<usize, Refusal>) -> LeafFreed {
        match reply {
            Ok(numbers) => LeafFreed {
                refusal: 0,
                numbers,
            },
            Err(refusal) => LeafFreed {
                refusal: u8::from(refusal),
                numbers: 0,
            },
        }
    }
}

// ---- the page count

// Whether a value may be so long: not empty, and not over the most.
pub fn size_right(value_size: usize) -> bool
    ensures { result ≡ size_right value_size }
{
    (0 < value_size) & (value_size <= MAX_OVERFLOW_VALUE_SIZE)
}

// The smallest count of pages that holds a value of so many bytes, and 4 bytes for each page beyond the fifteenth.
// A value's size is a number and has no type with its bounds: this function takes 0 too, and the others any size.
pub fn total_needed_pages(value_size: usize) -> PageCount
    requires { value_size ≤ 1048576 }
    ensures { (result.0 ≡ page_count value_size) × (result.0 ≤ 257) }
{
    if value_size <= 61380 {
        return PageCount((value_size + 4091) / 4092);
    }
    PageCount((value_size + 4027) / 4088)
}

// How many of these numbers stand in the cell.
pub fn in_cell(pages: PageCount) -> usize
    ensures { result ≡ min pages.0 15 }
{
    pages.0.min(MAX_OVERFLOW_CELL_NODE_POINTERS)
}

// The page count of a value of so many bytes, or 21.
pub fn page_count(len: usize) -> Result<PageCount, Refusal>
    ensures number { number_of result ≡ count_verdict len }
    ensures count { IfOk result (λ t. (t.0 ≡ page_count len) × (t.0 ≤ 257)) }
{
    if !size_right(len) {
        return Err(Refusal::OverflowLength);
    }
    Ok(total_needed_pages(len))
}

// The page count call: 21, or how many pages a splitting writes.
pub fn pages(len: usize) -> LeafPageCount
    ensures { result ≡ count_of len }
{
    LeafPageCount::from(page_count(len))
}

// A page's counts, of the numbers and bytes that are left.
pub fn shape_at(numbers: usize, bytes: usize) -> Shape
    ensures { (result.numbers ≡ numbers_here numbers) × (result.bytes ≡ bytes_here numbers bytes) }
{
    let here = numbers.min(MAX_PNS);
    Shape {
        numbers: here,
        bytes: bytes.min(4092 - 4 * here),
    }
}

// ---- numbers in bytes, low byte first

// The number in two bytes from index `at` on.
pub fn half_at(bytes: &[u8], at: usize) -> usize
    requires { at + 1 < length bytes.now }
    ensures { (result ≡ word bytes.now at) × (result < 65536) }
{
    usize::from(u16::from_le_bytes(*bytes_from(bytes, at)))
}

// The page number in four bytes from index `at` on.
pub fn number_in(bytes: &[u8], at: usize) -> PageNumber
    requires { at + 3 < length bytes.now }
    ensures { result.0 ≡ low_number (take 4 (drop at bytes.now)) }
{
    PageNumber(u32::from_le_bytes(*bytes_from(bytes, at)))
}

// A page number in four bytes from index `at` on.
fn put_number(out: &mut [u8], at: usize, number: PageNumber)
    requires { at + 4 ≤ length out.old }
    ensures { out.new ≡ put out.old at (low_bytes 4 number.0) }
{
    copy_in(&number.0.to_le_bytes(), out, at);
}

// Page numbers one behind the other from index `at` on.
pub fn put_numbers(out: &mut [u8], at: usize, numbers: &[u32])
    requires { at + 4 * length numbers.now ≤ length out.old }
    ensures { out.new ≡ put out.old at (numbers_out numbers.now) }
{
    for (j, number) in numbers.iter().enumerate() {
        put_number(out, at + 4 * j, PageNumber(*number));
    }
}

// ---- cells

// The cell of a value of so many bytes, zeros behind it.
pub fn encode_cell(value_size: usize, hash: &[u8; 32], numbers: &[u32]) -> [u8; 100]
    requires { length numbers.now ≤ 15 }
    ensures { (result ≡ padded (cell_of value_size hash.now numbers.now)) × (length hash.now ≡ 32) }
{
    let mut cell = [0u8; 100];
    copy_in(&value_size.to_le_bytes(), &mut cell, 0);
    copy_in(hash, &mut cell, 8);
    put_numbers(&mut cell, 40, numbers);
    cell
}

// The value's size, as a cell says it.
fn size_in(cell: &[u8]) -> usize
    requires { 8 ≤ length cell.now }
    ensures { result ≡ cell_size cell.now }
{
    usize::from_le_bytes(*bytes_from(cell, 0))
}

// Size and page count of a cell, where it is one that a splitting writes.
pub fn decode_cell(cell: &[u8]) -> Result<Decoded, Refusal>
    ensures { CellRead cell.now result }
{
    if cell.len() < 44 {
        return Err(Refusal::BadOverflow);
    }
    let size = size_in(cell);
    let Ok(pages) = page_count(size) else {
        return Err(Refusal::BadOverflow);
    };
    if cell.len() != 40 + 4 * in_cell(pages) {
        return Err(Refusal::BadOverflow);
    }
    Ok(Decoded { size, pages })
}
