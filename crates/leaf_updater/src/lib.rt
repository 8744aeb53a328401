// The calls as a firmware programmer links them: the calls of documents 01 and 02 under C names with the prefix `leaf_`, refusals by
// their numbers. No call has a `requires`. An enum can't cross to C, so replies are structs of numbers; `specs/`
// says which one stands for each case. `leaf_updater_c` exports each of them.
#![tactic(auto)]

ghost use Rattle.std.specs.Prelude.{◌≡◌, cond, length};
ghost use Rattle.refusal.specs.Numbers.{number_of};
ghost use Rattle.bit_ops.specs.Separate.{shared_bits, separate_verdict, separate_leaves};
ghost use Rattle.leaf_node.specs.Good.{page_verdict};
ghost use Rattle.leaf_read.specs.Reply.{key_reply, value_reply, get_reply, size_reply};
ghost use Rattle.leaf_page.specs.Reply.{key_out, value_out, get_out, size_out};
ghost use Rattle.leaf_builder.specs.Rebuild.{rebuild_verdict, rebuild_leaves};
ghost use Rattle.leaf_work.specs.Tests.{is_set};
ghost use Rattle.leaf_work.specs.Lent.{separator_of};
ghost use Rattle.leaf_work.specs.Outcome.{twin_of, part_of, in_scope_of};
ghost use Rattle.leaf_open.specs.Opening.{opening_of, work_after};
ghost use Rattle.leaf_pending.specs.Reply.{twin_out};
ghost use Rattle.leaf_take.specs.Reply.{change_given};
ghost use Rattle.digest.specs.Digests.{DigestSays};
ghost use Rattle.leaf_updater.specs.Calls.{OpenSays, IngestSays, NextBaseSays, RemoveCutoffSays};
ghost use Rattle.leaf_updater.specs.Copy.{copied_whole};

use digest::digest;
use leaf_again::{next_base, remove_cutoff};
use leaf_digest::LeafGave;
use leaf_open::{Base, open};
use leaf_page::{LeafKey, LeafSize, LeafValue};
use leaf_pending::{TwinPlace, twin};
use leaf_take::{LeafReport, change_of, ingest};
use leaf_work::{Entry, Work, key_if};
use refusal::{Refusal, number_of};

// ---- keys

// How many leading bits two keys share: 256 for equal ones.
pub fn leaf_prefix_len(a: &[u8; 32], b: &[u8; 32]) -> usize
    ensures { result ≡ shared_bits a.now b.now }
{
    bit_ops::prefix_len(a, b)
}

// Writes the separator of a and b into out and answers 0; equal keys are refused (11), and out then keeps what it held.
pub fn leaf_separate(a: &[u8; 32], b: &[u8; 32], out: &mut [u8; 32]) -> u8
    ensures value { result ≡ separate_verdict a.now b.now }
    ensures out_after { out.new ≡ separate_leaves a.now b.now out.old }
{
    number_of(bit_ops::separate(a, b, out))
}

// ---- leaf pages. A refusal has its number and zeros in every other field.

// The page's refusal, 1 to 5, or 0 for a good page.
pub fn leaf_page_check(page: &[u8]) -> u8
    ensures { result ≡ page_verdict 4096 page.now }
{
    number_of(leaf_node::check(page))
}

// Key i of a page.
pub fn leaf_page_key(page: &[u8], i: usize) -> LeafKey
    ensures { result ≡ key_out (key_reply 4096 page.now i) }
{
    leaf_page::key(page, i)
}

// Value i of a page: offset, length and flag.
pub fn leaf_page_value(page: &[u8], i: usize) -> LeafValue
    ensures { result ≡ value_out (value_reply 4096 page.now i) }
{
    leaf_page::value(page, i)
}

// The value of a key in a page, or absent.
pub fn leaf_page_get(page: &[u8], key: &[u8; 32]) -> LeafValue
    ensures { result ≡ get_out (get_reply 4096 page.now key.now) }
{
    leaf_page::get(page, key)
}

// The value bytes of records `from` up to, not including, `to`.
pub fn leaf_page_values_size(page: &[u8], from: usize, to: usize) -> LeafSize
    ensures { result ≡ size_out (size_reply 4096 page.now from to) }
{
    leaf_page::values_size(page, from, to)
}

// Builds the page of records `from` up to `to` in the first 4,096 bytes of out, records before `mid` cell by cell and the
// others as one chunk. Refused by 1 to 5, by 10 unless from <= mid <= to <= n, and by 17 where out is shorter; out is then
// as it was. It is the builder by itself, so that it can be compared with the Rust's.
pub fn leaf_page_rebuild(page: &[u8], from: usize, mid: usize, to: usize, out: &mut [u8]) -> u8
    ensures value { result ≡ rebuild_verdict 4096 page.now from mid to (length out.old) }
    ensures out_after { out.new ≡ rebuild_leaves 4096 page.now from mid to out.old }
{
    number_of(leaf_builder::rebuild(page, from, mid, to, out))
}

// ---- works. The work record is lent and changed in place; the list is a lent slice of entries. A flag is set where it is not 0. An
// absent page, separator or cutoff is ignored, whatever stands there. A refused call changes no byte.

// Keeps the work that a call answers; one that is refused leaves it as it was. Answers 0, or the refusal.
fn settle(work: &mut Work, answer: Result<Work, Refusal>) -> u8
    ensures { (result ≡ number_of answer) × (work.new ≡ work_after work.old answer) }
{
    match answer {
        Ok(after) => {
            *work = after;
            0
        }
        Err(refusal) => u8::from(refusal),
    }
}

// Opens a work in a mode, with a base or with none: list and store are filled with zeros. Answers 0, or the refusal.
pub fn leaf_open(
    work: &mut Work,
    list: &mut [Entry],
    store: &mut [u8],
    mode: u8,
    based: u8,
    page: &[u8],
    separator: &[u8; 32],
    cut: u8,
    cutoff: &[u8; 32],
) -> u8
    ensures { OpenSays (is_set mode) (opening_of (is_set based) page.now separator.now (is_set cut) cutoff.now) work.old list.old store.old result work.new list.new store.new }
{
    let base = (based != 0).then_some(Base { page, separator });
    let opened = open(mode != 0, base, key_if(cut, cutoff), list, store);
    settle(work, opened)
}

// Takes a key into an open work: with a new value and its flag where put is set, else as a deletion, which ignores both.
pub fn leaf_ingest(
    work: &mut Work,
    list: &mut [Entry],
    store: &mut [u8],
    page: &[u8],
    key: &[u8; 32],
    put: u8,
    flag: u8,
    value: &[u8],
) -> LeafReport
    ensures { IngestSays work.old list.old store.old page.now key.now (change_given put flag value.now) result work.new list.new store.new }
{
    let change = change_of(put, flag, value);
    LeafReport::from(ingest(work, list, store, page, key, change))
}

// Gives leaves of an open work's pending records: each as a page of the area, with its ticket in the other buffer.
pub fn leaf_digest(
    work: &mut Work,
    list: &mut [Entry],
    store: &mut [u8],
    page: &[u8],
    area: &mut [u8],
    tickets: &mut [u8],
) -> LeafGave
    ensures { DigestSays work.old list.old store.old page.now area.old tickets.old result work.new list.new store.new area.new tickets.new }
{
    LeafGave::from(digest(work, list, store, page, area, tickets))
}

// The next base of a work that waits, or is done and has a cutoff. Answers 0, or the refusal.
pub fn leaf_next_base(
    work: &mut Work,
    list: &[Entry],
    store: &[u8],
    page: &[u8],
    separator: &[u8; 32],
    cut: u8,
    cutoff: &[u8; 32],
) -> u8
    ensures { NextBaseSays work.old list.now store.now page.now separator.now (is_set cut) cutoff.now result work.new }
{
    let next = next_base(work, list, store, page, separator, key_if(cut, cutoff));
    settle(work, next)
}

// Removes the cutoff of a work that waits. Answers 0, or the refusal.
pub fn leaf_remove_cutoff(work: &mut Work, list: &[Entry], store: &[u8]) -> u8
    ensures { RemoveCutoffSays work.old list.now store.now result work.new }
{
    let next = remove_cutoff(work, list, store);
    settle(work, next)
}

// Pending record i: where its value lies, its key and its flag.
pub fn leaf_twin(work: Work, list: &[Entry], store: &[u8], page: &[u8], i: usize) -> TwinPlace
    ensures { result ≡ twin_out (twin_of 4096 work list.now store.now page.now i) }
{
    TwinPlace::from(twin(&work, list, store, page, i))
}

// The value of pending record i, as a part of store or page; none where the twin call refuses.
pub fn part<'a>(work: Work, list: &[Entry], store: &'a [u8], page: &'a [u8], i: usize) -> &'a [u8]
    ensures { result.now ≡ part_of 4096 work list.now store.now page.now i }
{
    leaf_pending::part(&work, list, store, page, i)
}

// The value of pending record i, copied to the start of out where out has room for it. Answers the value's length; a refused
// read has none.
pub fn leaf_part<'a>(
    work: Work,
    list: &[Entry],
    store: &'a [u8],
    page: &'a [u8],
    i: usize,
    out: &mut [u8],
) -> usize
    ensures { (result ≡ length (part_of 4096 work list.now store.now page.now i)) × (out.new ≡ copied_whole (part_of 4096 work list.now store.now page.now i) out.old) }
{
    copy_whole(part(work, list, store, page, i), out)
}

// Copies bytes to the start of out where out has room for all of them. Answers their length.
fn copy_whole(bytes: &[u8], out: &mut [u8]) -> usize
    ensures { (result ≡ length bytes.now) × (out.new ≡ copied_whole bytes.now out.old) }
{
    if out.len() < bytes.len() {
        return bytes.len();
    }
    leaf_node::copy_in(bytes, out, 0);
    bytes.len()
}

// Whether a key may still come, 1 or 0: it is below the cutoff, where there is one.
pub fn leaf_is_in_scope(work: Work, key: &[u8; 32]) -> u8
    ensures { result ≡ cond (in_scope_of work key.now) 1 0 }
{
    u8::from(work.is_in_scope(key))
}

// Writes the current separator into out.
pub fn leaf_separator(work: Work, out: &mut [u8; 32])
    ensures { out.new ≡ separator_of work }
{
    *out = work.separator();
}

// ======== large values and melt sheets, with what they alone use

ghost use Rattle.overflow.specs.Outcome.{count_of, split_of, join_of, free_of};
ghost use Rattle.melt_sheet.specs.Melt.{melt_of};

use melt_weight::LeafMelt;
use overflow::{LeafFreed, LeafJoined, LeafPageCount, LeafSplit};

// ---- overflow cells and pages. A refusal has its number and zeros in every other field, and what is lent keeps its bytes.

// How many pages a value of so many bytes takes, and so how many numbers a splitting wants. Refused by 21.
pub fn leaf_overflow_pages(value_len: usize) -> LeafPageCount
    ensures { result ≡ count_of value_len }
{
    overflow::pages(value_len)
}

// Splits a value into its cell, handed back, and its pages, in the front of the area; the first numbers are used, one a page. Refused by 21, then 22.
pub fn leaf_overflow_split(
    value: &[u8],
    hash: &[u8; 32],
    numbers: &[u32],
    area: &mut [u8],
) -> LeafSplit
    ensures value { result ≡ (split_of value.now hash.now numbers.now area.old).reply }
    ensures area_after { area.new ≡ (split_of value.now hash.now numbers.now area.old).area }
{
    overflow_split::split(value, hash, numbers, area)
}

// Joins the pages of a cell, lent in the order of their numbers, into the front of the value buffer. Refused by 23 (the cell), 22, 23 (the pages).
pub fn leaf_overflow_join(cell: &[u8], pages: &[u8], value: &mut [u8]) -> LeafJoined
    ensures value { result ≡ (join_of cell.now pages.now value.old).reply }
    ensures value_after { value.new ≡ (join_of cell.now pages.now value.old).value }
{
    overflow_read::join(cell, pages, value)
}

// Writes the numbers of a cell and its pages, in the order of the pages, into the front of the list. Refused by 23 (the cell), 22, 23 (the pages).
pub fn leaf_overflow_free(cell: &[u8], pages: &[u8], numbers: &mut [u32]) -> LeafFreed
    ensures value { result ≡ (free_of cell.now pages.now numbers.old).reply }
    ensures numbers_after { numbers.new ≡ (free_of cell.now pages.now numbers.old).numbers }
{
    overflow_read::free(cell, pages, numbers)
}

// ---- a row of leaves

// The melt sheet of the tree that 24 key bytes name, in a row of pages with their separators.
pub fn leaf_melt(pages: &[u8], separators: &[[u8; 32]], tree: &[u8; 24]) -> LeafMelt
    ensures { result ≡ melt_of 4096 pages.now separators.now tree.now }
{
    melt_sheet::sheet(pages, separators, tree, leaf_node::PAGE)
}
