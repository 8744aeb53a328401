// Nos. 1 to 6 of document 01, "Refusals by number": what the calls of the updater are lent as a base page; and the most that they take as list and
// store.
#![tactic(auto)]

ghost use Rattle.std.specs.Prelude.{◌≡◌, ◌<◌, IfOk};
ghost use Rattle.refusal.specs.Numbers.{number_of};
ghost use Rattle.leaf_node.specs.Page.{records};
ghost use Rattle.leaf_node.specs.Good.{KeysRise};
ghost use Rattle.leaf_work.specs.Tests.{lent_key};
ghost use Rattle.leaf_work.specs.Sound.{keys_within};
ghost use Rattle.leaf_work.specs.Verdict.{base_verdict, keys_verdict};

use bit_ops::less;
use leaf_node::{LeafNode, Size};
use leaf_work::is_below;
use refusal::Refusal;

// The most entries and store bytes that a call takes.
pub const MOST_ENTRIES: usize = 4096;

pub const MOST_STORE_BYTES: usize = 65536;

// ---- the page, Nos. 1 to 6

// Whether a page's keys are at or above the separator and below the cutoff: since keys rise, the first and the last decide.
fn keys_within(node: LeafNode, separator: &[u8; 32], cutoff: Option<&[u8; 32]>) -> bool
    requires { 0 < node.n → KeysRise node.page.now }
    ensures { result ≡ keys_within separator.now (lent_key cutoff.entry) (records node.entry.page.now) }
{
    if node.n == 0 {
        return true;
    }
    if less(node.key(0), separator) {
        return false;
    }
    is_below(node.key(node.n - 1), cutoff)
}

// A work's base when it is lent again. Refused: the page itself, or a key outside separator and cutoff.
pub fn keys_verdict<'a>(
    page: &'a [u8],
    separator: &[u8; 32],
    cutoff: Option<&[u8; 32]>,
    size: Size,
) -> Result<LeafNode<'a>, Refusal>
    ensures number { number_of result ≡ keys_verdict size.bytes page.now separator.now (lent_key cutoff.entry) }
    ensures page { IfOk result (λ node. node.page.now ≡ page.now) }
{
    let node = LeafNode::new(page, size)?;
    if !keys_within(node, separator, cutoff) {
        return Err(Refusal::BadBounds);
    }
    Ok(node)
}

// A new base. Refused besides: a cutoff that isn't above the separator.
pub fn base_verdict<'a>(
    page: &'a [u8],
    separator: &[u8; 32],
    cutoff: Option<&[u8; 32]>,
    size: Size,
) -> Result<LeafNode<'a>, Refusal>
    ensures number { number_of result ≡ base_verdict size.bytes page.now separator.now (lent_key cutoff.entry) }
    ensures page { IfOk result (λ node. node.page.now ≡ page.now) }
{
    let node = keys_verdict(page, separator, cutoff, size)?;
    if !is_below(separator, cutoff) {
        return Err(Refusal::BadBounds);
    }
    Ok(node)
}
