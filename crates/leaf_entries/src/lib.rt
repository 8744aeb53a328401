// The list as a lent slice of entries, each a plain struct: the functions that read, insert, split and drain entries.
#![tactic(auto)]

ghost use Rattle.std.specs.Prelude.{◌≡◌, ◌≤◌, length, get_or, set, take};
ghost use Rattle.leaf_model.specs.Basics.{cleared};
ghost use Rattle.leaf_work.specs.Lent.{blank, insert_at, chunk_of};
ghost use Rattle.leaf_work.specs.Pending.{records_in};
ghost use Rattle.leaf_entries.specs.Lists.{behind_of};

use leaf_work::Entry;

// ---- one entry, by value

// An unused entry.
pub fn blank_entry() -> Entry
    ensures { result ≡ blank }
{
    Entry {
        kind: 0,
        flag: 0,
        from: 0,
        to: 0,
        sum: 0,
        key: [0u8; 32],
    }
}

// An insert, whose value is the store's bytes `from` to `to`.
pub fn insert_entry(from: usize, to: usize, key: &[u8; 32], flag: u8) -> Entry
    ensures { result ≡ insert_at from to key.now flag }
{
    Entry {
        kind: 1,
        flag,
        from,
        to,
        sum: 0,
        key: *key,
    }
}

// A chunk, base records `first` to `end`, whose values have `sum` bytes.
pub fn chunk_entry(first: usize, end: usize, sum: usize) -> Entry
    ensures { result ≡ chunk_of first end sum }
{
    Entry {
        kind: 2,
        from: first,
        to: end,
        sum,
        ..blank_entry()
    }
}

// An entry without its first `skip` records, where it has as many.
fn behind(entry: Entry, skip: usize) -> Entry
    ensures { result ≡ behind_of skip entry }
{
    if entry.is_insert() {
        return entry;
    }
    if entry.to < entry.from {
        return entry;
    }
    if entry.to - entry.from < skip {
        return entry;
    }
    chunk_entry(entry.from + skip, entry.to, 0)
}

// How many records an entry has.
pub fn records_in_entry(entry: &Entry) -> usize
    ensures { result ≡ records_in entry.now }
{
    if entry.is_insert() {
        return 1;
    }
    entry.to.saturating_sub(entry.from)
}

// ---- the list is read

// Entry `at`, or behind the list's end an unused one.
pub fn read(list: &[Entry], at: usize) -> Entry
    ensures { result ≡ get_or list.now at blank }
{
    if at < list.len() {
        list[at]
    } else {
        blank_entry()
    }
}

// Entry `at`, split behind its first `skip` records: what a leaf that ends inside a chunk leaves of it.
pub fn split(list: &[Entry], at: usize, skip: usize) -> Entry
    ensures { result ≡ behind_of skip (get_or list.now at blank) }
{
    let entry = read(list, at);
    behind(entry, skip)
}

// ---- the list is changed

// Lists an entry, where its place lies in the list.
pub fn insert(list: &mut [Entry], at: usize, entry: Entry)
    ensures { list.new ≡ set list.old at entry }
{
    if at < list.len() {
        list[at] = entry;
    }
}

// Entries are unused from index `from` on.
pub fn drain(list: &mut [Entry], from: usize)
    ensures { list.new ≡ cleared blank list.old from }
{
    if from < list.len() {
        list[from..].fill(blank_entry());
    }
}
