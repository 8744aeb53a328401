// The pending records, one by one: the twin call says where a record's value lies, the part call hands it back.
#![tactic(auto)]

ghost use Rattle.std.specs.Prelude.{◌≡◌, ◌+◌, ◌<◌, ◌≤◌, length, IfOk};
ghost use Rattle.leaf_node.specs.Page.{count};
ghost use Rattle.leaf_work.specs.Pending.{in_base, chunk_places, entry_places, records_in, pending_places, part_at};
ghost use Rattle.leaf_work.specs.Outcome.{Found, nth_place, twin_of, part_of};
ghost use Rattle.leaf_pending.specs.Reply.{holder_of, holder_number, place_of, twin_reply, twin_out};
ghost use Rattle.leaf_pending.specs.Steps.{EntryRead, Walk, LiesIn};

use leaf_check::lent_base;
use leaf_entries::records_in_entry;
use leaf_node::{LeafNode, PAGE};
use leaf_work::{Entry, Work};
use refusal::Refusal;

// Which of the two that are lent has a pending record's value: two cases that the papers name, and so no `Option`.
#[derive(Clone, Copy, Debug, PartialEq, Eq)]
pub enum Holder {
    Store = 1,
    Base = 2,
}

// A pending record: the holder of its value, and there offset and length; its flag and its key.
#[derive(Clone, Copy)]
pub struct Place {
    pub holder: Holder,
    pub flag: bool,
    pub offset: usize,
    pub len: usize,
    pub key: [u8; 32],
}

// The same for C: a refusal, or 0 and a pending record. A refusal has zeros in every other field.
#[repr(C)]
#[derive(Clone, Copy)]
pub struct TwinPlace {
    pub refusal: u8,
    pub holder: u8,
    pub flag: bool,
    pub offset: usize,
    pub len: usize,
    pub key: [u8; 32],
}

impl From<Holder> for u8 {
    ghost from_gives = { λ holder n. n ≡ holder_number (holder_of holder) };

    fn from(holder: Holder) -> u8 {
        holder as u8
    }
}

impl From<Result<Place, Refusal>> for TwinPlace {
    ghost from_gives = { λ reply out. out ≡ twin_out (twin_reply reply) };

    fn from(reply: Result<Place, Refusal>) -> TwinPlace {
        match reply {
            Ok(place) => {
                let key = place.key;
                TwinPlace {
                    refusal: 0,
                    holder: u8::from(place.holder),
                    flag: place.flag,
                    offset: place.offset,
                    len: place.len,
                    key,
                }
            }
            Err(refusal) => TwinPlace {
                refusal: u8::from(refusal),
                holder: 0,
                flag: false,
                offset: 0,
                len: 0,
                key: [0; 32],
            },
        }
    }
}

// ---- the records

// Record i of the base.
fn base_record(node: LeafNode, i: usize) -> Place
    requires { i < node.n }
    ensures { place_of result ≡ in_base node.entry.page.now i }
{
    let cell = node.cell(i);
    Place {
        holder: Holder::Base,
        flag: cell.flag,
        offset: cell.offset,
        len: cell.len,
        key: *node.key(i),
    }
}

// Record i of the base's rest, which begins at `low`.
pub fn rest_record(node: LeafNode, low: usize, i: usize) -> Result<Place, Refusal>
    requires { low ≤ node.n }
    ensures { twin_reply result ≡ nth_place i (chunk_places node.entry.page.now low (count node.entry.page.now)) }
{
    if node.n - low <= i {
        return Err(Refusal::NoSuchIndex);
    }
    Ok(base_record(node, low + i))
}

// Record i of an entry.
pub fn entry_record(entry: &Entry, node: LeafNode, i: usize) -> Place
    requires { (EntryRead node.n entry.now) × (i < records_in entry.now) }
    ensures { Found (place_of result) ≡ nth_place i (entry_places node.entry.page.now entry.now) }
{
    if !entry.is_insert() {
        return base_record(node, entry.from + i);
    }
    Place {
        holder: Holder::Store,
        flag: entry.is_flagged(),
        offset: entry.from,
        len: entry.to - entry.from,
        key: entry.key,
    }
}

// Pending record i: the entries' records, then the base's rest. It goes on counting records from entry to entry, which no search of
// the library does.
fn pending_record(work: &Work, list: &[Entry], node: LeafNode, i: usize) -> Result<Place, Refusal>
    requires { Walk work.now list.now node.n }
    ensures { twin_reply result ≡ nth_place i (pending_places work.now list.now node.entry.page.now) }
{
    let mut left = i;
    for entry in &list[..work.used] {
        let n = records_in_entry(entry);
        if left < n {
            return Ok(entry_record(entry, node, left));
        }
        left -= n;
    }
    rest_record(node, work.low, left)
}

// ---- the calls

// Pending record i: where its value lies, its key and its flag.
pub fn twin(
    work: &Work,
    list: &[Entry],
    store: &[u8],
    page: &[u8],
    i: usize,
) -> Result<Place, Refusal>
    ensures reply { twin_reply result ≡ twin_of 4096 work.now list.now store.now page.now i }
    ensures place { IfOk result (λ place. LiesIn store.now page.now (place_of place)) }
{
    let node = lent_base(work, list, store, page, PAGE)?;
    pending_record(work, list, node, i)
}

// The bytes at a place, of whichever holds it.
pub fn part_at<'a>(place: &Place, store: &'a [u8], page: &'a [u8]) -> &'a [u8]
    requires { LiesIn store.now page.now (place_of place.now) }
    ensures { result.now ≡ part_at store.now page.now (place_of place.now) }
{
    let holder = match place.holder {
        Holder::Store => store,
        Holder::Base => page,
    };
    &holder[place.offset..place.offset + place.len]
}

// The value of pending record i, as a part of store or page; none where the twin call refuses.
pub fn part<'a>(work: &Work, list: &[Entry], store: &'a [u8], page: &'a [u8], i: usize) -> &'a [u8]
    ensures { result.now ≡ part_of 4096 work.now list.now store.now page.now i }
{
    match twin(work, list, store, page, i) {
        Ok(place) => part_at(&place, store, page),
        Err(_) => &page[..0],
    }
}
