// Document 02, M-101: the leaves of a row, one after another, each loaded or copied; list and store are the memory of the work inside.
// Ported from nomt/src/beatree/ops/update/leaf_stage.rs of thrumdev/nomt: `run_worker`.
#![tactic(auto)]

ghost use Rattle.std.specs.Prelude.{◌≡◌, ◌≤◌, length};
ghost use Rattle.row_leaves.specs.Turns.{nothing_at, turn_by, TurnThere, LeafTurned, RowAsked, RowGiven};

use leaf_work::Entry;
use refusal::Refusal;
use row_leaf::{LentRow, RowAt, Turn, changes_end, copy_leaf, is_loaded, leaf_at, load_leaf};

// ---- one leaf

// The turn of leaf i, where the turns before it have come so far.
fn turn_at(at: RowAt, lent: LentRow, i: usize) -> Turn
    requires { (length lent.row.separators.now ≤ 16) × (at.change ≤ length lent.changes.now) }
    ensures { result ≡ turn_by at lent.entry.row.separators.now lent.entry.changes.now i }
{
    let leaf = leaf_at(lent.row.separators, i);
    Turn {
        at,
        leaf,
        to: changes_end(lent.changes, at.change, leaf),
    }
}

// A leaf's turn: it is loaded where it takes a change or a merge asks for it, else copied.
fn turn(
    t: Turn,
    list: &mut [Entry],
    store: &mut [u8],
    lent: LentRow,
    area: &mut [u8],
    tickets: &mut [u8],
) -> Result<RowAt, Refusal>
    requires { TurnThere t list.old store.old lent area.old tickets.old }
    ensures { LeafTurned t list.old store.old lent.entry area.old tickets.old result list.new store.new area.new tickets.new }
{
    if is_loaded(t.at, t.to) {
        return load_leaf(t, list, store, lent, area, tickets);
    }
    Ok(copy_leaf(t.at, t.leaf, lent.row.pages, area, tickets))
}

// ---- leaf after leaf

// Before the first leaf.
pub fn begin_row() -> RowAt
    ensures { result ≡ nothing_at }
{
    RowAt {
        leaves: 0,
        last: [0; 32],
        change: 0,
        value: 0,
        waiting: None,
    }
}

// All leaves of a row, up to the first that is refused.
pub fn all_turns(
    list: &mut [Entry],
    store: &mut [u8],
    lent: LentRow,
    area: &mut [u8],
    tickets: &mut [u8],
) -> Result<RowAt, Refusal>
    requires { RowAsked list.old store.old lent area.old tickets.old }
    ensures { RowGiven list.old store.old lent.entry area.old tickets.old result list.new store.new area.new tickets.new }
{
    let mut at = begin_row();
    for i in 0..lent.row.separators.len() {
        at = turn(turn_at(at, lent, i), list, store, lent, area, tickets)?;
    }
    Ok(at)
}
