// The builder of leaf pages: records pushed in order into a lent page, cell by cell or as a chunk of another page.
// Ported from nomt/src/beatree/leaf/node.rs of thrumdev/nomt: `LeafBuilder`. The lent page stands for the Rust's page of
// the pool; the index of the next record and the place of its value are the caller's.
#![tactic(auto)]

ghost use Rattle.std.specs.Prelude.{◌≡◌, [], ◌∷◌, ◌++◌, ◌+◌, ◌-◌, ◌≤◌, ◌<◌, length};
ghost use Rattle.refusal.specs.Numbers.{number_of};
ghost use Rattle.bit_ops.specs.Steps.{zeros};
ghost use Rattle.leaf_node.specs.Page.{pointer, key_at, offset_at, flag_at, start, record_at, records_between};
ghost use Rattle.leaf_node.specs.Build.{le16, tagged, pointers, put, started, pushed, build};
ghost use Rattle.leaf_builder.specs.Steps.{Begins, CellFits, Shift, Chunk, Parts, pointer_moved};
ghost use Rattle.leaf_builder.specs.Rebuild.{rebuild_verdict, rebuild_leaves};

use leaf_node::{
    PAGE, PAGE_SIZE, Size, cell_at, copy_in, count_of, key_at, number_at, size_between, start_at,
    verdict,
};
use refusal::Refusal;

// ---- writing

// Zeros from index `from` up to `to`.
pub fn clear_between(d: &mut [u8], from: usize, to: usize)
    requires { (from ≤ to) × (to ≤ length d.old) }
    ensures { d.new ≡ put d.old from (zeros (to - from)) }
{
    d[from..to].fill(0);
}

// A 16-bit number at byte `at`, low byte first.
fn put_word(d: &mut [u8], at: usize, w: usize)
    requires { (at + 1 < length d.old) × (w < 65536) }
    ensures { d.new ≡ put d.old at (le16 w) }
{
    copy_in(&(w as u16).to_le_bytes(), d, at);
}

// A pointer's number: the offset, with the top bit for a flagged value.
fn number_of(at: usize, flag: bool) -> usize
    requires { at < 32768 }
    ensures { (result ≡ tagged at flag) × (result < 65536) }
{
    if flag { at + 32768 } else { at }
}

// ---- the builder

// Begins a page for n records with `total` bytes of values: the count, and zeros in the gap. Answers where the first
// value begins.
pub fn begin(d: &mut [u8], n: usize, total: usize) -> usize
    requires { Begins (length d.old) n total }
    ensures { (d.new ≡ started d.old n total) × (result ≡ length d.old - total) }
{
    let at = d.len() - total;
    put_word(d, 0, n);
    clear_between(d, 34 * n + 2, at);
    at
}

// Pushes a record as number j, its value at byte `at`. Answers where the value ends.
pub fn push_cell(
    d: &mut [u8],
    j: usize,
    at: usize,
    key: &[u8; 32],
    value: &[u8],
    flag: bool,
) -> usize
    requires { CellFits (length d.old) j at (length value.now) }
    ensures { (d.new ≡ pushed d.old j at (record { key = key.entry.now; value = value.now; flag = flag } ∷ [])) × (result ≡ at + length value.now) }
{
    copy_in(key, d, 34 * j + 2);
    put_word(d, 34 * j + 34, number_of(at, flag));
    copy_in(value, d, at);
    at + value.len()
}

// The pointer of record i of a page at byte `place`, for a value that moves as those from `first` on move to `at`. Key and
// number are written once; the number's top bit, the flag, stays.
fn push_pointer(page: &[u8], i: usize, d: &mut [u8], place: usize, first: usize, at: usize)
    requires { Shift page.now i (length d.old) place first at }
    ensures { d.new ≡ put d.old place (pointer_moved page.now i first at) }
{
    copy_in(key_at(page, i), d, place);
    put_word(d, place + 32, number_at(page, i) + at - first);
}

// The pointers of a chunk whose values move to `at`, each written a single time: after each record the pointers up to it are
// final and the later ones as before (`PointersUpTo`).
fn move_pointers(page: &[u8], from: usize, to: usize, d: &mut [u8], j: usize, at: usize)
    requires { Chunk page.now from to (length d.old) j at }
    ensures { d.new ≡ put d.old (pointer j) (pointers at (records_between page.now from to)) }
{
    let first = start_at(page, count_of(page), from);
    let mut place = 34 * j + 2;
    for i in from..to {
        push_pointer(page, i, d, place, first, at);
        place += 34;
    }
}

// The pointers of records `from` up to `to` of a page, as pointers from j on, for values from byte `at` on. Where the values stay,
// the numbers are final as they stand in the page, and one copy writes each pointer once.
fn push_pointers(page: &[u8], from: usize, to: usize, d: &mut [u8], j: usize, at: usize)
    requires { Chunk page.now from to (length d.old) j at }
    ensures { d.new ≡ put d.old (pointer j) (pointers at (records_between page.now from to)) }
{
    let first = start_at(page, count_of(page), from);
    if first == at {
        copy_in(&page[34 * from + 2..34 * to + 2], d, 34 * j + 2);
        return;
    }
    move_pointers(page, from, to, d, j, at);
}

// Pushes records `from` up to `to` of a page as records from j on, their values from byte `at` on, in one copy. Answers
// where the values end.
pub fn push_chunk(page: &[u8], from: usize, to: usize, d: &mut [u8], j: usize, at: usize) -> usize
    requires { Chunk page.now from to (length d.old) j at }
    ensures { (d.new ≡ pushed d.old j at (records_between page.now from to)) × (result ≡ at + (start page.now to - start page.now from)) }
{
    let n = count_of(page);
    let first = start_at(page, n, from);
    let last = start_at(page, n, to);
    push_pointers(page, from, to, d, j, at);
    copy_in(&page[first..last], d, at);
    at + (last - first)
}

// ---- a page built of a part of another

// Pushes record i of a page as number j, its value at byte `at`. Answers where the value ends.
fn push_record(page: &[u8], i: usize, d: &mut [u8], j: usize, at: usize) -> usize
    requires { Chunk page.now i (i + 1) (length d.old) j at }
    ensures { (d.new ≡ pushed d.old j at (record_at page.now i ∷ [])) × (result ≡ at + (start page.now (i + 1) - start page.now i)) }
{
    let c = cell_at(page, i);
    let first = c.offset;
    let last = c.offset + c.len;
    push_cell(d, j, at, key_at(page, i), &page[first..last], c.flag)
}

// What `push_chunk` does, cell by cell.
fn push_cells(page: &[u8], from: usize, to: usize, d: &mut [u8], j: usize, at: usize) -> usize
    requires { Chunk page.now from to (length d.old) j at }
    ensures { (d.new ≡ pushed d.old j at (records_between page.now from to)) × (result ≡ at + (start page.now to - start page.now from)) }
{
    let mut k = j;
    let mut next = at;
    for i in from..to {
        next = push_record(page, i, d, k, next);
        k += 1;
    }
    next
}

// The page of records `from` up to `to`: those before `mid` cell by cell, the others as one chunk.
fn build_parts(page: &[u8], from: usize, mid: usize, to: usize, d: &mut [u8])
    requires { Parts page.now from mid to (length d.old) }
    ensures { d.new ≡ build (length d.old) (records_between page.now from to) }
{
    let total = size_between(page, count_of(page), from, to);
    let first = begin(d, to - from, total);
    let next = push_cells(page, from, mid, d, 0, first);
    push_chunk(page, mid, to, d, mid - from, next);
}

// What refuses `rebuild` into an area of `room` bytes.
fn rebuild_verdict(
    page: &[u8],
    size: Size,
    from: usize,
    mid: usize,
    to: usize,
    room: usize,
) -> Result<(), Refusal>
    ensures { number_of result ≡ rebuild_verdict size.bytes page.now from mid to room }
{
    verdict(page, size)?;
    if mid < from {
        return Err(Refusal::NoSuchIndex);
    }
    if to < mid {
        return Err(Refusal::NoSuchIndex);
    }
    if count_of(page) < to {
        return Err(Refusal::NoSuchIndex);
    }
    if room < size.bytes {
        return Err(Refusal::ShortArea);
    }
    Ok(())
}

// Builds the page of records `from` up to `to` of a page in the first bytes of out, records before `mid` cell by cell and
// the others as one chunk; an empty range builds the empty page. A refusal leaves out as it was.
pub fn rebuild(
    page: &[u8],
    from: usize,
    mid: usize,
    to: usize,
    out: &mut [u8],
) -> Result<(), Refusal>
    ensures value { number_of result ≡ rebuild_verdict 4096 page.now from mid to (length out.old) }
    ensures out_after { out.new ≡ rebuild_leaves 4096 page.now from mid to out.old }
{
    rebuild_verdict(page, PAGE, from, mid, to, out.len())?;
    build_parts(page, from, mid, to, &mut out[..PAGE_SIZE]);
    Ok(())
}
