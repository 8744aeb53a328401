// Opening.
// Ported from nomt/src/beatree/ops/update/leaf_updater.rs of thrumdev/nomt: `LeafUpdater::new`.
#![tactic(auto)]

ghost use Rattle.std.specs.Prelude.{◌≡◌};
ghost use Rattle.std.specs.Option.{is_some};
ghost use Rattle.refusal.specs.Numbers.{number_of};
ghost use Rattle.leaf_work.specs.declared.Work as declared;
ghost use Rattle.leaf_work.specs.Verdict.{open_verdict};
ghost use Rattle.leaf_work.specs.Outcome.{fresh_work, open_of};
ghost use Rattle.leaf_open.specs.Opening.{key_or_zeros, separator_lent, opening_lent, open_base_verdict, OpenAnswers};

use leaf_base::base_verdict;
use leaf_check::room_right;
use leaf_entries::blank_entry;
use leaf_node::{PAGE, Size};
use leaf_work::{Entry, OPEN, Room, Work};
use refusal::Refusal;

// A base to open with: its page and its separator.
#[derive(Clone, Copy)]
pub struct Base<'a> {
    pub page: &'a [u8],
    pub separator: &'a [u8; 32],
}

// A key as the work record has it: zeros when absent.
pub fn key_or_zeros(key: Option<&[u8; 32]>) -> [u8; 32]
    ensures { result ≡ key_or_zeros key.entry }
{
    key.copied().unwrap_or([0; 32])
}

fn separator_of<'a>(base: Option<Base<'a>>) -> Option<&'a [u8; 32]>
    ensures { result ≡ separator_lent base.entry }
{
    base.map(|base| base.separator)
}

// What an opening's base refuses, or a cutoff without one.
pub fn open_base_verdict(
    base: Option<Base>,
    cutoff: Option<&[u8; 32]>,
    size: Size,
) -> Result<(), Refusal>
    ensures { number_of result ≡ open_base_verdict size.bytes base.entry cutoff.entry }
{
    match base {
        Some(base) => {
            base_verdict(base.page, base.separator, cutoff, size)?;
            Ok(())
        }
        None => {
            if cutoff.is_some() {
                return Err(Refusal::BadBounds);
            }
            Ok(())
        }
    }
}

// What refuses an opening with so many entries and so many bytes of store.
fn open_verdict(
    base: Option<Base>,
    cutoff: Option<&[u8; 32]>,
    list: &[Entry],
    store: &[u8],
    size: Size,
) -> Result<(), Refusal>
    ensures { number_of result ≡ open_verdict size.bytes (opening_lent base.entry cutoff.entry) list.now store.now }
{
    open_base_verdict(base, cutoff, size)?;
    if !room_right(Room::of(list, store), size) {
        return Err(Refusal::RoomLength);
    }
    Ok(())
}

// An open work with nothing listed, in the mode that reports every dropped flagged record or in the Rust's. Without a base its separator
// is zeros. Each field is named here: of the default's the search finds no proof.
pub fn fresh_work(every: bool, separator: Option<&[u8; 32]>, cutoff: Option<&[u8; 32]>) -> Work
    ensures { result ≡ fresh_work every (is_some separator.entry) (key_or_zeros separator.entry) (is_some cutoff.entry) (key_or_zeros cutoff.entry) }
{
    let lowest = key_or_zeros(separator);
    Work {
        turn: OPEN,
        based: u8::from(separator.is_some()),
        mode: u8::from(every),
        low: 0,
        used: 0,
        filled: 0,
        count: 0,
        bytes: 0,
        latest: lowest,
        cut: u8::from(cutoff.is_some()),
        cutoff: key_or_zeros(cutoff),
        over: 0,
        overriding: [0u8; 32],
        floor: lowest,
        taken: 0,
        last: [0u8; 32],
    }
}

// Opening: list and store are filled with zeros. Whatever work the caller held is then the new one; a refused call changes nothing.
pub fn open(
    every: bool,
    base: Option<Base>,
    cutoff: Option<&[u8; 32]>,
    list: &mut [Entry],
    store: &mut [u8],
) -> Result<Work, Refusal>
    ensures { (held : declared.Work) → OpenAnswers (open_of 4096 every (opening_lent base.entry cutoff.entry) held list.old store.old) held result list.new store.new }
{
    open_verdict(base, cutoff, list, store, PAGE)?;
    list.fill(blank_entry());
    store.fill(0);
    Ok(fresh_work(every, separator_of(base), cutoff))
}
