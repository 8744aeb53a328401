// Document 02, M-105: the pages of a cell checked, joined into their value, and freed. Ported from nomt/src/beatree/ops/overflow.rs of thrumdev/nomt: `read_blocking`, `delete`,
// `parse_page`. The caller lends the pages one behind the other, in the order of their numbers: the cell's, then those that stand in the pages.
#![tactic(auto)]

ghost use Rattle.std.specs.Prelude.{◌≡◌, ◌++◌, ◌+◌, ◌-◌, ◌*◌, ◌≤◌, ◌<◌, length, drop, IfOk};
ghost use Rattle.refusal.specs.Numbers.{number_of};
ghost use Rattle.leaf_node.specs.Build.{put};
ghost use Rattle.overflow.specs.Read.{all_zero, page_right, numbers_read, pages_in, pages_right, joined_value, cell_size, cell_count, cell_numbers_read, freed_numbers};
ghost use Rattle.overflow.specs.Verdict.{join_verdict, free_verdict};
ghost use Rattle.overflow.specs.Outcome.{join_of, free_of};
ghost use Rattle.overflow.specs.Steps.{RightCell};
ghost use Rattle.overflow_read.specs.Steps.{Checked, decoded_verdict};

use leaf_node::copy_in;
use overflow::{
    Decoded, LeafFreed, LeafJoined, PageCount, decode_cell, half_at, in_cell, number_in, shape_at,
};
use refusal::Refusal;

// ---- the check of the pages

// Whether all bytes are zeros: their sum is. A loop that ended at the first other byte, or a sum of 64 bits, would go byte by byte.
fn all_zeros(bytes: &[u8]) -> bool
    requires { length bytes.now ≤ 4096 }
    ensures { result ≡ all_zero bytes.now }
{
    let mut sum = 0u32;
    for byte in bytes {
        sum += u32::from(*byte);
    }
    sum == 0
}

// Whether a page's head says so many numbers and bytes, and zeros stand behind them.
fn page_right(page: &[u8], numbers: usize, bytes: usize) -> bool
    requires { (length page.now ≡ 4096) × (4 * numbers + bytes ≤ 4092) }
    ensures { result ≡ page_right numbers bytes page.now }
{
    if half_at(page, 0) != numbers {
        return false;
    }
    if half_at(page, 2) != bytes {
        return false;
    }
    all_zeros(&page[4 + 4 * numbers + bytes..])
}

// The numbers that stand in the pages: those beyond the cell's.
fn others(pages: PageCount) -> usize
    ensures { result ≡ pages.0 - 15 }
{
    pages.0 - in_cell(pages)
}

// Whether all pages are as the splitting that wrote the cell writes them; `numbers` and `bytes` are left for page i and those behind it.
fn pages_right(cell: Decoded, pages: &[u8]) -> bool
    requires { 4096 * cell.pages.0 ≤ length pages.now }
    ensures { result ≡ pages_right (cell.pages.0 - 15) cell.size (pages_in cell.pages.0 pages.now) }
{
    let mut numbers = others(cell.pages);
    let mut bytes = cell.size;
    for i in 0..cell.pages.0 {
        let shape = shape_at(numbers, bytes);
        let at = 4096 * i;
        if !page_right(&pages[at..at + 4096], shape.numbers, shape.bytes) {
            return false;
        }
        numbers -= shape.numbers;
        bytes -= shape.bytes;
    }
    true
}

// No. 22, where what is lent for the answer is too short (`fits`) or the pages are, then No. 23 of the pages.
fn read_verdict(cell: Decoded, pages: &[u8], fits: bool) -> Result<(), Refusal>
    requires { cell.pages.0 ≤ 257 }
    ensures { number_of result ≡ decoded_verdict cell.size cell.pages.0 pages.now fits }
{
    if !(fits & (4096 * cell.pages.0 <= pages.len())) {
        return Err(Refusal::ShortBuffer);
    }
    if !pages_right(cell, pages) {
        return Err(Refusal::BadOverflow);
    }
    Ok(())
}

// ---- joining

// The bytes of all pages, one behind the other. Before page i stand `from` bytes; `numbers` and `bytes` are left.
fn join_pages(cell: Decoded, pages: &[u8], value: &mut [u8])
    requires { (Checked pages.now cell.pages.0 cell.size) × (cell.size ≤ length value.old) }
    ensures { value.new ≡ put value.old 0 (joined_value (pages_in cell.pages.0 pages.now)) }
{
    let mut numbers = others(cell.pages);
    let mut bytes = cell.size;
    let mut from = 0;
    for i in 0..cell.pages.0 {
        let shape = shape_at(numbers, bytes);
        let at = 4096 * i + 4 + 4 * shape.numbers;
        let end = at + shape.bytes;
        copy_in(&pages[at..end], value, from);
        from += shape.bytes;
        numbers -= shape.numbers;
        bytes -= shape.bytes;
    }
}

// Joins into the front of the buffer, where nothing refuses it. Answers the value's length.
fn join_value(cell: &[u8], pages: &[u8], value: &mut [u8]) -> Result<usize, Refusal>
    ensures number { number_of result ≡ join_verdict cell.now pages.now (length value.old) }
    ensures len { IfOk result (λ len. len ≡ cell_size cell.now) }
    ensures value_after { value.new ≡ (join_of cell.now pages.now value.old).value }
{
    let read = decode_cell(cell)?;
    read_verdict(read, pages, read.size <= value.len())?;
    join_pages(read, pages, value);
    Ok(read.size)
}

// The join call: the value's length, and the value in the front of the buffer.
pub fn join(cell: &[u8], pages: &[u8], value: &mut [u8]) -> LeafJoined
    ensures value { result ≡ (join_of cell.now pages.now value.old).reply }
    ensures value_after { value.new ≡ (join_of cell.now pages.now value.old).value }
{
    LeafJoined::from(join_value(cell, pages, value))
}

// ---- freeing

// So many page numbers, read from index `from` on and listed from index `at` on.
fn take_numbers(bytes: &[u8], from: usize, count: usize, out: &mut [u32], at: usize)
    requires { (from + 4 * count ≤ length bytes.now) × (at + count ≤ length out.old) }
    ensures { out.new ≡ put out.old at (numbers_read count (drop from bytes.now)) }
{
    for j in 0..count {
        let number = number_in(bytes, from + 4 * j);
        out[at + j] = number.0;
    }
}

// The numbers of a cell and its pages. Those of the pages stand in the first page alone, where the Rust's `delete` ends too.
fn delete(cell: &[u8], said: Decoded, pages: &[u8], numbers: &mut [u32])
    requires { (RightCell cell.now said.size said.pages.0) × (Checked pages.now said.pages.0 said.size) × (said.pages.0 ≤ length numbers.old) }
    ensures { numbers.new ≡ put numbers.old 0 (cell_numbers_read cell.now ++ freed_numbers (pages_in said.pages.0 pages.now)) }
{
    let first = in_cell(said.pages);
    take_numbers(cell, 40, first, numbers, 0);
    take_numbers(pages, 4, others(said.pages), numbers, first);
}

// Frees into the front of the list, where nothing refuses it. Answers how many numbers.
fn free_numbers(cell: &[u8], pages: &[u8], numbers: &mut [u32]) -> Result<usize, Refusal>
    ensures number { number_of result ≡ free_verdict cell.now pages.now (length numbers.old) }
    ensures count { IfOk result (λ count. count ≡ cell_count cell.now) }
    ensures numbers_after { numbers.new ≡ (free_of cell.now pages.now numbers.old).numbers }
{
    let said = decode_cell(cell)?;
    read_verdict(said, pages, said.pages.0 <= numbers.len())?;
    delete(cell, said, pages, numbers);
    Ok(said.pages.0)
}

// The free call: how many numbers, and the numbers in the front of the list.
pub fn free(cell: &[u8], pages: &[u8], numbers: &mut [u32]) -> LeafFreed
    ensures value { result ≡ (free_of cell.now pages.now numbers.old).reply }
    ensures numbers_after { numbers.new ≡ (free_of cell.now pages.now numbers.old).numbers }
{
    LeafFreed::from(free_numbers(cell, pages, numbers))
}
