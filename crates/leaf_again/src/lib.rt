// Next base and cutoff removal: a work that waits or is done is open again. List and store are only read.
// Ported from nomt/src/beatree/ops/update/leaf_updater.rs of thrumdev/nomt: `LeafUpdater::reset_base` and `remove_cutoff`.
#![tactic(auto)]

ghost use Rattle.std.specs.Prelude.{◌≡◌, ◌≤◌, length};
ghost use Rattle.std.specs.Option.{is_some};
ghost use Rattle.refusal.specs.Numbers.{number_of};
ghost use Rattle.leaf_node.specs.Page.{count};
ghost use Rattle.leaf_node.specs.Steps.{Laid};
ghost use Rattle.leaf_work.specs.Tests.{lent_key};
ghost use Rattle.leaf_work.specs.Verdict.{follows_verdict, next_base_verdict, remove_verdict};
ghost use Rattle.leaf_work.specs.Outcome.{next_base_work, next_base_of, remove_work, remove_cutoff_of};
ghost use Rattle.leaf_open.specs.Opening.{key_or_zeros};
ghost use Rattle.leaf_again.specs.Again.{WorkAnswers};

use bit_ops::less;
use leaf_base::base_verdict;
use leaf_check::closed_verdict;
use leaf_node::{PAGE, Size, count_of, size_between};
use leaf_open::{Base, key_or_zeros};
use leaf_work::{Entry, OPEN, Room, Work};
use refusal::Refusal;

// What refuses a good page as the next base of a sound work that isn't open, where list and store have this room. It takes a page and no
// `LeafNode`, since it asks no more of it than that its records are laid.
pub fn follows_verdict(
    work: &Work,
    page: &[u8],
    separator: &[u8; 32],
    room: Room,
) -> Result<(), Refusal>
    requires { (Laid page.now (count page.now)) × (count page.now ≤ room.entries) × (length page.now ≤ room.bytes) }
    ensures { number_of result ≡ follows_verdict work.now page.now separator.now room.entries room.bytes }
{
    let Some(cutoff) = work.cutoff() else {
        return Err(Refusal::OutOfTurn);
    };
    if less(separator, cutoff) {
        return Err(Refusal::KeyTooLow);
    }
    let n = count_of(page);
    if room.entries - n < work.count {
        return Err(Refusal::ListFull);
    }
    if room.bytes - size_between(page, n, 0, n) < work.bytes {
        return Err(Refusal::StoreFull);
    }
    Ok(())
}

// What refuses a next base.
fn next_base_verdict(
    work: &Work,
    list: &[Entry],
    store: &[u8],
    base: Base,
    cutoff: Option<&[u8; 32]>,
    size: Size,
) -> Result<(), Refusal>
    ensures { number_of result ≡ next_base_verdict size.bytes work.now list.now store.now base.entry.page.now base.entry.separator.now (lent_key cutoff.entry) }
{
    base_verdict(base.page, base.separator, cutoff, size)?;
    closed_verdict(work, list, store, size)?;
    follows_verdict(work, base.page, base.separator, Room::of(list, store))
}

pub fn next_base_work(work: &Work, separator: &[u8; 32], cutoff: Option<&[u8; 32]>) -> Work
    ensures { result ≡ next_base_work work.now separator.now (is_some cutoff.entry) (key_or_zeros cutoff.entry) }
{
    Work {
        turn: OPEN,
        based: 1,
        low: 0,
        latest: *separator,
        cut: u8::from(cutoff.is_some()),
        cutoff: key_or_zeros(cutoff),
        floor: *separator,
        ..*work
    }
}

// Next base: what is listed stays, and the new page is the base.
pub fn next_base(
    work: &Work,
    list: &[Entry],
    store: &[u8],
    page: &[u8],
    separator: &[u8; 32],
    cutoff: Option<&[u8; 32]>,
) -> Result<Work, Refusal>
    ensures { WorkAnswers (next_base_of 4096 work.now list.now store.now page.now separator.now (is_some cutoff.entry) (key_or_zeros cutoff.entry)) work.now result }
{
    next_base_verdict(work, list, store, Base { page, separator }, cutoff, PAGE)?;
    Ok(next_base_work(work, separator, cutoff))
}

// What refuses a cutoff removal.
fn remove_verdict(work: &Work, list: &[Entry], store: &[u8], size: Size) -> Result<(), Refusal>
    ensures { number_of result ≡ remove_verdict size.bytes work.now list.now store.now }
{
    closed_verdict(work, list, store, size)?;
    if !work.is_waiting() {
        return Err(Refusal::OutOfTurn);
    }
    Ok(())
}

pub fn remove_work(work: &Work) -> Work
    ensures { result ≡ remove_work work.now }
{
    Work {
        turn: OPEN,
        based: 0,
        low: 0,
        cut: 0,
        cutoff: [0; 32],
        ..*work
    }
}

// Cutoff removal: what is listed stays, and there is no base.
pub fn remove_cutoff(work: &Work, list: &[Entry], store: &[u8]) -> Result<Work, Refusal>
    ensures { WorkAnswers (remove_cutoff_of 4096 work.now list.now store.now) work.now result }
{
    remove_verdict(work, list, store, PAGE)?;
    Ok(remove_work(work))
}
