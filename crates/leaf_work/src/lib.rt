// The leaf updater: the work record and its entries. `specs/` says what every call does with them; the calls follow.
// Ported from nomt/src/beatree/ops/update/leaf_updater.rs of thrumdev/nomt: `LeafUpdater`, `LeafGauge` and `LeafOp`.
#![tactic(auto)]

ghost use Rattle.std.specs.Prelude.{◌≡◌, eqb, length};
ghost use Rattle.leaf_model.specs.Work.{below_cutoff};
ghost use Rattle.leaf_work.specs.Tests.{is_set, key_if, lent_key};
ghost use Rattle.leaf_work.specs.Lent.{is_open, is_waiting, is_done, cutoff_of, last_of, separator_of, reads_base, regarded};
ghost use Rattle.leaf_work.specs.Outcome.{in_scope_of};

use bit_ops::less;

// The turns of a work. They are numbers and no enum, since C lends the record, and any byte may stand there. 0 is none of them, so that
// zeroed memory is not taken for an open work.
pub const OPEN: u8 = 1;

// It waits for a merge.
pub const WAITING: u8 = 2;

pub const DONE: u8 = 3;

// The work record. Turn and flags are numbers, since any bytes may be lent. A key whose flag isn't set is zeros. Before the first opening
// the record holds zeros, its default.
#[repr(C)]
#[derive(Clone, Copy, Default)]
pub struct Work {
    // `OPEN`, `WAITING` or `DONE`
    pub turn: u8,
    // whether there is a base
    pub based: u8,
    // which dropped flagged records an ingest reports: 0 those behind a base record that it took up, as the Rust does; 1 every one
    pub mode: u8,
    // how many of the base's records were passed
    pub low: usize,
    // entries and store bytes used
    pub used: usize,
    pub filled: usize,
    // the gauge: how many records are listed, and the bytes of their values
    pub count: usize,
    pub bytes: usize,
    // the latest base's separator, zeros where there was no base
    pub latest: [u8; 32],
    pub cut: u8,
    pub cutoff: [u8; 32],
    pub over: u8,
    pub overriding: [u8; 32],
    // the lowest key that separators and merge requests still allow
    pub floor: [u8; 32],
    // the last key taken
    pub taken: u8,
    pub last: [u8; 32],
}

// An entry of the list. Kind 0: unused. Kind 1: an insert, whose value is the store's bytes `from` to `to`. Kind 2: a chunk, base records
// `from` to `to`, whose values have `sum` bytes. `to` is the end. What a kind doesn't use is zero.
#[repr(C)]
#[derive(Clone, Copy)]
pub struct Entry {
    pub kind: u8,
    pub flag: u8,
    pub from: usize,
    pub to: usize,
    pub sum: usize,
    pub key: [u8; 32],
}

// A key that is lent where its flag is set: any number but 0 sets it.
pub fn key_if(flag: u8, key: &[u8; 32]) -> Option<&[u8; 32]>
    ensures { lent_key result ≡ key_if (is_set flag) key.now }
{
    (flag != 0).then_some(key)
}

// Whether a key is below the cutoff, where there is one.
pub fn is_below(key: &[u8; 32], cutoff: Option<&[u8; 32]>) -> bool
    ensures { result ≡ below_cutoff (lent_key cutoff.entry) key.now }
{
    match cutoff {
        Some(cutoff) => less(key, cutoff),
        None => true,
    }
}

impl Work {
    pub fn is_open(&self) -> bool
        ensures { result ≡ is_open self.now }
    {
        self.turn == OPEN
    }

    pub fn is_waiting(&self) -> bool
        ensures { result ≡ is_waiting self.now }
    {
        self.turn == WAITING
    }

    pub fn is_done(&self) -> bool
        ensures { result ≡ is_done self.now }
    {
        self.turn == DONE
    }

    // Whether an ingest reports every dropped flagged record.
    pub fn reports_every(&self) -> bool
        ensures { result ≡ is_set self.now.mode }
    {
        self.mode != 0
    }

    // The cutoff, where there is one.
    pub fn cutoff(&self) -> Option<&[u8; 32]>
        ensures { lent_key result ≡ cutoff_of self.now }
    {
        key_if(self.cut, &self.cutoff)
    }

    // The last key taken, where there is one.
    pub fn last_taken(&self) -> Option<&[u8; 32]>
        ensures { lent_key result ≡ last_of self.now }
    {
        key_if(self.taken, &self.last)
    }

    // Whether a key may still come: it is below the cutoff, where there is one. Refuses nothing.
    pub fn is_in_scope(&self, key: &[u8; 32]) -> bool
        ensures { result ≡ in_scope_of self.now key.now }
    {
        is_below(key, self.cutoff())
    }

    // The current separator: the override, else the latest base's. Refuses nothing.
    pub fn separator(&self) -> [u8; 32]
        ensures { result ≡ separator_of self.now }
    {
        if self.over == 0 {
            return self.latest;
        }
        self.overriding
    }

    // Whether the lent page is read: an open work with a base reads it.
    pub fn reads_base(&self) -> bool
        ensures { result ≡ reads_base self.now }
    {
        self.is_open() & (self.based != 0)
    }

    // The lent page as the work regards it: none of its bytes where it is ignored.
    pub fn regard<'a>(&self, page: &'a [u8]) -> &'a [u8]
        ensures { result.now ≡ regarded self.now page.now }
    {
        if self.reads_base() {
            return page;
        }
        &page[..0]
    }
}

// How many entries the list has, and how many bytes the store.
#[derive(Clone, Copy)]
pub struct Room {
    pub entries: usize,
    pub bytes: usize,
}

impl Room {
    pub fn of(list: &[Entry], store: &[u8]) -> Room
        ensures { (result.entries ≡ length list.now) × (result.bytes ≡ length store.now) }
    {
        Room {
            entries: list.len(),
            bytes: store.len(),
        }
    }
}

impl Entry {
    pub fn is_insert(&self) -> bool
        ensures { result ≡ eqb self.now.kind 1 }
    {
        self.kind == 1
    }

    pub fn is_flagged(&self) -> bool
        ensures { result ≡ is_set self.now.flag }
    {
        self.flag != 0
    }
}
