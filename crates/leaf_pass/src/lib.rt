// The pass over the list in which a work's soundness is tested: each entry is held against what was seen before it.
#![tactic(auto)]

ghost use Rattle.std.specs.List.{list_all};
ghost use Rattle.std.specs.Option.{option_map};
ghost use Rattle.std.specs.Prelude.{◌≡◌, ◌==◌, ◌+◌, ◌≤◌, ◌<◌, length, take, drop};
ghost use Rattle.leaf_model.specs.Work.{zero_key};
ghost use Rattle.leaf_work.specs.Tests.{every, is_zero, same_bytes};
ghost use Rattle.leaf_work.specs.Sound.{is_blank};
ghost use Rattle.leaf_pass.specs.Pass.{Seeing, Small, is_behind, insert_right, chunk_lies, chunk_right, insert_passed, chunk_passed, passed, passed_all};

use bit_ops::{less, word_from};
use leaf_node::LeafNode;
use leaf_work::Entry;

// What the pass over the list knows of the entries that it has seen, none of which was wrong.
#[derive(Clone, Copy)]
pub struct Tally {
    pub seen: usize,
    // how many are inserts, and where the next one's value must begin
    pub inserts: usize,
    pub end: usize,
    // the gauge: how many records, and the bytes of their values
    pub count: usize,
    pub bytes: usize,
    // the last key; before the first record the separator, which that one may equal
    pub last: [u8; 32],
}

// A pass so far, none of whose numbers comes near the largest.
#[derive(Clone, Copy)]
pub struct Pass {
    pub tally: Tally,
    pub ghost small: { Small tally },
}

// What the work record says of its entries, and the longest value.
#[derive(Clone, Copy)]
pub struct Bounds {
    pub used: usize,
    pub filled: usize,
    pub low: usize,
    pub most: usize,
}

// What entries are held against: the bounds, and the base, of which the passed part is a part.
#[derive(Clone, Copy)]
pub struct Sight<'a> {
    pub bounds: Bounds,
    pub node: LeafNode<'a>,
    pub ghost seeing: { Seeing bounds node.n },
}

// ---- small tests

// Whether the eight bytes from `i` on are zeros.
fn eight_zeros(bytes: &[u8], i: usize) -> bool
    requires { i + 8 ≤ length bytes.now }
    ensures { result ≡ every is_zero (take 8 (drop i bytes.now)) }
{
    word_from(bytes, i) == 0
}

// Whether all bytes are zeros, byte by byte.
fn all_zeros(bytes: &[u8]) -> bool
    ensures { result ≡ list_all (λ x. x == 0) bytes.now }
{
    bytes.iter().all(|byte| *byte == 0)
}

// Whether all bytes are zeros, eight at a time.
fn zero_bytes(bytes: &[u8]) -> bool
    requires { length bytes.now ≤ 65536 }
    ensures { result ≡ every is_zero bytes.now }
{
    let words = bytes.len() / 8;
    for i in 0..words {
        if !eight_zeros(bytes, 8 * i) {
            return false;
        }
    }
    all_zeros(&bytes[8 * words..])
}

// Whether the bytes from `from` on are zeros.
pub fn zeros_from(bytes: &[u8], from: usize) -> bool
    requires { (from ≤ length bytes.now) × (length bytes.now ≤ 65536) }
    ensures { result ≡ every is_zero (drop from bytes.now) }
{
    zero_bytes(&bytes[from..])
}

// Whether two keys are one, by the definition that soundness cites.
pub fn same_key(a: &[u8; 32], b: &[u8; 32]) -> bool
    ensures { result ≡ same_bytes a.now b.now }
{
    bit_ops::equal(a, b)
}

// Whether a key is zeros, as an absent one must be: by four words and without a branch, since it is asked of every unused entry.
pub fn is_zero_key(key: &[u8; 32]) -> bool
    ensures { result ≡ same_bytes key.now zero_key }
{
    let low = eight_zeros(key, 0) & eight_zeros(key, 8);
    let high = eight_zeros(key, 16) & eight_zeros(key, 24);
    low & high
}

// Whether an entry is unused: all of its fields are zero.
pub fn is_blank(entry: &Entry) -> bool
    ensures { result ≡ is_blank entry.now }
{
    (entry.kind == 0)
        & ((entry.from == 0)
            & ((entry.to == 0)
                & ((entry.sum == 0) & (is_zero_key(&entry.key) & (entry.flag == 0)))))
}

// ---- one entry

impl Tally {
    // Whether a key may stand behind the records seen: above the last one, or, the first, at or above the separator.
    pub fn is_behind(&self, key: &[u8; 32]) -> bool
        ensures { result ≡ is_behind self.now.count self.now.last key.now }
    {
        if self.count == 0 {
            return !less(key, &self.last);
        }
        less(&self.last, key)
    }
}

// Whether an insert is right where it stands.
fn insert_right(bounds: Bounds, tally: &Tally, entry: &Entry) -> bool
    ensures { result ≡ insert_right bounds tally.now entry.now }
{
    let fields = (entry.from <= entry.to) & ((entry.sum == 0) & (entry.flag <= 1));
    let len = entry.to.saturating_sub(entry.from);
    let place = (entry.from == tally.end) & ((entry.to <= bounds.filled) & (len <= bounds.most));
    fields & (place & tally.is_behind(&entry.key))
}

// Whether an entry is a chunk in the passed part, with no key and no flag.
fn chunk_lies(low: usize, entry: &Entry) -> bool
    ensures { result ≡ chunk_lies low entry.now }
{
    (entry.kind == 2)
        & ((entry.from < entry.to)
            & ((entry.to <= low) & (is_zero_key(&entry.key) & (entry.flag == 0))))
}

impl<'a> Sight<'a> {
    // Whether a chunk is right where it stands.
    fn chunk_right(self, tally: &Tally, entry: &Entry) -> bool
        ensures { result ≡ chunk_right self.entry.bounds self.entry.node.page.now tally.now entry.now }
    {
        if !chunk_lies(self.bounds.low, entry) {
            return false;
        }
        let sum = self.node.size_between(entry.from, entry.to);
        let behind = tally.is_behind(self.node.key(entry.from));
        (entry.sum == sum) & behind
    }

    // The pass after one more entry that must be an insert: none where the entry is wrong.
    fn pass_insert(self, pass: Pass, entry: &Entry) -> Option<Pass>
        requires { pass.tally.seen < self.bounds.used }
        ensures { option_map (λ z. z.tally) result ≡ insert_passed self.entry.bounds pass.tally entry.now }
    {
        let tally = pass.tally;
        if !insert_right(self.bounds, &tally, entry) {
            return None;
        }
        let tally = Tally {
            seen: tally.seen + 1,
            inserts: tally.inserts + 1,
            end: entry.to,
            count: tally.count + 1,
            bytes: tally.bytes + (entry.to - entry.from),
            last: entry.key,
        };
        Some(Pass { tally })
    }

    // The same of one that must be a chunk.
    fn pass_chunk(self, pass: Pass, entry: &Entry) -> Option<Pass>
        requires { pass.tally.seen < self.bounds.used }
        ensures { option_map (λ z. z.tally) result ≡ chunk_passed self.entry.bounds self.entry.node.page.now pass.tally entry.now }
    {
        let tally = pass.tally;
        if !self.chunk_right(&tally, entry) {
            return None;
        }
        let tally = Tally {
            seen: tally.seen + 1,
            count: tally.count + (entry.to - entry.from),
            bytes: tally.bytes + entry.sum,
            last: *self.node.key(entry.to - 1),
            ..tally
        };
        Some(Pass { tally })
    }

    // The pass after one more entry: an operation among the used ones, unused behind them. None where the entry is wrong.
    pub fn pass_entry(self, pass: Pass, entry: &Entry) -> Option<Pass>
        ensures { option_map (λ z. z.tally) result ≡ passed self.entry.bounds self.entry.node.page.now pass.tally entry.now }
    {
        if self.bounds.used <= pass.tally.seen {
            return is_blank(entry).then_some(pass);
        }
        if entry.is_insert() {
            return self.pass_insert(pass, entry);
        }
        self.pass_chunk(pass, entry)
    }

    // ---- the list

    // The pass over entries, one by one.
    fn pass_each(self, start: Pass, list: &[Entry]) -> Option<Pass>
        ensures { option_map (λ z. z.tally) result ≡ passed_all self.entry.bounds self.entry.node.page.now start.tally list.now }
    {
        let mut pass = start;
        for entry in list {
            pass = self.pass_entry(pass, entry)?;
        }
        Some(pass)
    }

    // The pass over all entries, by the one over the used ones: any other that isn't unused is wrong. So the long rest of a list costs one small
    // test an entry.
    pub fn pass_list(self, start: Pass, list: &[Entry]) -> Option<Pass>
        ensures { option_map (λ z. z.tally) result ≡ passed_all self.entry.bounds self.entry.node.page.now start.tally list.now }
    {
        let used = self.bounds.used.min(list.len());
        let pass = self.pass_each(start, &list[..used])?;
        all_blank(&list[used..]).then_some(pass)
    }
}

fn all_blank(list: &[Entry]) -> bool
    ensures { result ≡ list_all is_blank list.now }
{
    list.iter().all(|entry| is_blank(entry))
}
