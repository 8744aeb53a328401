// Document 02, M-101: a whole row in one call.
// Ported from nomt/src/beatree/ops/update/leaf_stage.rs of thrumdev/nomt: `run`, for one worker.
#![tactic(auto)]

ghost use Rattle.std.specs.Prelude.{◌≡◌};
ghost use Rattle.row_leaves.specs.Turns.{RowAsked};
ghost use Rattle.row_apply.specs.Apply.{is_bare, row_reply, TakenTo, RowClosed, RowLent, LentSays, RowSays};

use leaf_entries::blank_entry;
use leaf_node::PAGE;
use leaf_work::{Entry, Room};
use refusal::Refusal;
use row_changes::LeafChange;
use row_check::{Lengths, Row, row_verdict};
use row_leaf::{LentRow, RowAt, Turn, leaf_at, load_leaf};
use row_leaves::{all_turns, begin_row};

// The row call's answer for C: 0 or the refusal, and the pages of the new row.
#[repr(C)]
#[derive(Clone, Copy)]
pub struct LeafRow {
    pub refusal: u8,
    pub pages: usize,
}

impl From<Result<usize, Refusal>> for LeafRow {
    ghost from_gives = { λ reply out. out ≡ row_reply reply };

    fn from(reply: Result<usize, Refusal>) -> LeafRow {
        match reply {
            Ok(pages) => LeafRow { refusal: 0, pages },
            Err(refusal) => LeafRow {
                refusal: u8::from(refusal),
                pages: 0,
            },
        }
    }
}

// ---- the turns

// Whether a row without leaves takes changes: it is opened without a base.
fn is_bare(leaves: usize, changes: usize) -> bool
    ensures { result ≡ is_bare leaves changes }
{
    (leaves == 0) & (changes != 0)
}

// The turns of a row that passed, list and store cleared.
fn take_turns(
    list: &mut [Entry],
    store: &mut [u8],
    lent: LentRow,
    area: &mut [u8],
    tickets: &mut [u8],
) -> Result<RowAt, Refusal>
    requires { RowAsked list.old store.old lent area.old tickets.old }
    ensures { TakenTo list.old store.old lent.entry area.old tickets.old result list.new store.new area.new tickets.new }
{
    if !is_bare(lent.row.separators.len(), lent.changes.len()) {
        return all_turns(list, store, lent, area, tickets);
    }
    let turn = Turn {
        at: begin_row(),
        leaf: leaf_at(lent.row.separators, 0),
        to: lent.changes.len(),
    };
    load_leaf(turn, list, store, lent, area, tickets)
}

// The pages of the new row; a refusal in the middle fills all that was lent with zeros.
fn close_row(
    turned: Result<RowAt, Refusal>,
    list: &mut [Entry],
    store: &mut [u8],
    area: &mut [u8],
    tickets: &mut [u8],
) -> Result<usize, Refusal>
    ensures { RowClosed turned list.old store.old area.old tickets.old result list.new store.new area.new tickets.new }
{
    match turned {
        Ok(at) => Ok(at.leaves),
        Err(refusal) => {
            list.fill(blank_entry());
            store.fill(0);
            area.fill(0);
            tickets.fill(0);
            Err(refusal)
        }
    }
}

// ---- the call

// The pages of the new row, or what refuses it.
fn new_row(
    list: &mut [Entry],
    store: &mut [u8],
    lent: LentRow,
    area: &mut [u8],
    tickets: &mut [u8],
) -> Result<usize, Refusal>
    requires { RowLent lent }
    ensures { LentSays list.old store.old lent.entry area.old tickets.old result list.new store.new area.new tickets.new }
{
    let lengths = Lengths {
        room: Room::of(list, store),
        values: lent.values.len(),
        area: area.len(),
        tickets: tickets.len(),
    };
    row_verdict(lengths, lent.row, lent.changes, PAGE)?;
    list.fill(blank_entry());
    store.fill(0);
    let turned = take_turns(list, store, lent, area, tickets);
    close_row(turned, list, store, area, tickets)
}

// Applies rising changes to a row of at most 16 pages: the new row as pages and tickets; list and store are zeros after. C calls it, so that its parameters are what C lends. What is
// lent to be written goes on as four slices: a struct of them would have its contracts say of each that it is still the same slice.
pub fn apply_row(
    list: &mut [Entry],
    store: &mut [u8],
    pages: &[u8],
    separators: &[[u8; 32]],
    changes: &[LeafChange],
    values: &[u8],
    area: &mut [u8],
    tickets: &mut [u8],
) -> LeafRow
    ensures { RowSays list.old store.old pages.now separators.now changes.now values.now area.old tickets.old result list.new store.new area.new tickets.new }
{
    let lent = LentRow {
        row: Row { pages, separators },
        changes,
        values,
    };
    LeafRow::from(new_row(list, store, lent, area, tickets))
}
