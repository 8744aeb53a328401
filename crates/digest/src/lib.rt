// The digest of a work over its list of entries: what refuses it, its leaves, and what it leaves behind.
// Ported from nomt/src/beatree/ops/update/leaf_updater.rs of thrumdev/nomt: `LeafUpdater::digest`.
#![tactic(auto)]

ghost use Rattle.std.specs.Prelude.{◌≡◌, length};
ghost use Rattle.leaf_node.specs.Fits.{All};
ghost use Rattle.leaf_work.specs.Digest.{digest_of};
ghost use Rattle.leaf_digest.specs.Reply.{given_of, reply_of};
ghost use Rattle.leaf_digest.specs.Steps.{Digests, Leaves};
ghost use Rattle.digest.specs.Steps.{outcome_of, reply_by, Ready};

use digest_keep::prepare_merge_ops;
use digest_leaf::Pending;
use digest_leaves::give_leaves;
use leaf_digest::{Given, digest_base, digest_work};
use leaf_entries::drain;
use leaf_give::Progress;
use leaf_node::{LeafNode, PAGE, Size};
use leaf_work::{Entry, Work};
use refusal::Refusal;

// What a digest that has come so far answers.
fn given_by(work: &Work, p: Progress) -> Given
    ensures { given_of result ≡ reply_by work.now p }
{
    let cutoff = (p.left.count != 0).then_some(work.cutoff);
    Given {
        leaves: p.leaves,
        cutoff,
    }
}

// A digest of a work whose lent things earn no refusal and whose leaves have room; the base is as the work regards it. What it changes is lent
// alone by C, each in its own place.
pub fn digest_ready(
    work: &mut Work,
    list: &mut [Entry],
    store: &mut [u8],
    node: LeafNode,
    area: &mut [u8],
    tickets: &mut [u8],
    size: Size,
) -> Given
    requires { Ready size.bytes work.old list.old store.old node.page.now area.old tickets.old }
    ensures { Leaves (outcome_of size.bytes work.old list.old store.old node.entry.page.now area.old tickets.old) (given_of result) work.new list.new store.new area.new tickets.new }
{
    let pending = Pending {
        work,
        list,
        store,
        node,
    };
    let p = give_leaves(pending, area, tickets, size);
    prepare_merge_ops(work, list, store, node, p.at, p.left);
    let given = given_by(work, p);
    *work = digest_work(work, p.left, &p.separator);
    given
}

// The same for a caller that doesn't know what its list holds behind the used entries: they are cleared first. Of a sound work they are zeros, so
// that `digest` calls `digest_ready`, which doesn't go over them.
pub fn digest_ready_of_any_list(
    work: &mut Work,
    list: &mut [Entry],
    store: &mut [u8],
    node: LeafNode,
    area: &mut [u8],
    tickets: &mut [u8],
    size: Size,
) -> Given
    requires { Digests size.bytes work.old list.old store.old node.page.now area.old tickets.old }
    ensures { Leaves (outcome_of size.bytes work.old list.old store.old node.entry.page.now area.old tickets.old) (given_of result) work.new list.new store.new area.new tickets.new }
{
    drain(list, work.used);
    digest_ready(work, list, store, node, area, tickets, size)
}

// That a key has 32 bytes is known of one that is lent.
fn key_length(key: &[u8; 32]) -> usize
    ensures { length key.now ≡ 32 }
{
    key.len()
}

// The same of all keys of a list: a slice of structs tells it of each that is read. The compiler drops the loop.
fn read_keys(list: &[Entry])
    ensures { All (λ e. length e.key ≡ 32) list.now }
{
    for entry in list {
        key_length(&entry.key);
    }
}

// Digest: takes up the rest of the base and gives leaves, each as a page of the area, with its ticket.
pub fn digest(
    work: &mut Work,
    list: &mut [Entry],
    store: &mut [u8],
    page: &[u8],
    area: &mut [u8],
    tickets: &mut [u8],
) -> Result<Given, Refusal>
    ensures { Leaves (digest_of 4096 work.old list.old store.old page.now area.old tickets.old) (reply_of result) work.new list.new store.new area.new tickets.new }
{
    read_keys(list);
    let node = digest_base(work, list, store, page, area, tickets, PAGE)?;
    let given = digest_ready(work, list, store, node, area, tickets, PAGE);
    Ok(given)
}
