// Document 02, M-101: the changes that a loaded leaf takes, ingested one after another. Nothing that is lent is checked again between them.
#![tactic(auto)]

ghost use Rattle.std.specs.Prelude.{◌≡◌};
ghost use Rattle.leaf_ingest.specs.Reply.{change_of};
ghost use Rattle.row_ingest.specs.Taking.{change_by, ChangeThere, ChangeTaken, ChangesThere, ChangesTaken};

use leaf_ingest::Change;
use leaf_node::{LeafNode, PAGE};
use leaf_take::take_in;
use leaf_work::{Entry, Work};
use refusal::Refusal;
use row_changes::{LeafChange, flag_at, key_of, put_at, value_len};

// What the changes of a leaf have come to: the work, and where the next change's value begins.
#[derive(Clone, Copy)]
pub struct Taking {
    pub work: Work,
    pub value: usize,
}

// ---- one change

fn change_at<'a>(change: &LeafChange, value: &'a [u8]) -> Change<'a>
    ensures { change_of result ≡ change_by change.now value.entry.now }
{
    if put_at(change) {
        return Change::Put {
            value,
            flag: flag_at(change),
        };
    }
    Change::Delete
}

// Takes a change into a loaded leaf.
fn take_change(
    t: Taking,
    list: &mut [Entry],
    store: &mut [u8],
    node: LeafNode,
    change: &LeafChange,
    values: &[u8],
) -> Result<Taking, Refusal>
    requires { ChangeThere t list.old store.old node.page.now change.now values.now }
    ensures { ChangeTaken t list.old store.old node.entry.page.now change.now values.now result list.new store.new }
{
    let own = key_of(change);
    let to = t.value + value_len(change);
    let taken = change_at(change, &values[t.value..to]);
    let mut work = t.work;
    take_in(&mut work, list, store, node, own, taken, PAGE)?;
    Ok(Taking { work, value: to })
}

// ---- all of them

// Takes changes into a loaded leaf, in order, up to the first that is refused. `values` begins with the first one's.
pub fn take_changes(
    work: Work,
    list: &mut [Entry],
    store: &mut [u8],
    node: LeafNode,
    changes: &[LeafChange],
    values: &[u8],
) -> Result<Taking, Refusal>
    requires { ChangesThere work list.old store.old node.page.now changes.now values.now }
    ensures { ChangesTaken work list.old store.old node.entry.page.now changes.now values.now result list.new store.new }
{
    let mut t = Taking { work, value: 0 };
    for change in changes {
        t = take_change(t, list, store, node, change, values)?;
    }
    Ok(t)
}
