// Document 01's calls that read a leaf page: a key, a value, the values' size of a range, and `get`. Each checks the whole page.
// Ported from nomt/src/beatree/leaf/node.rs of thrumdev/nomt: `LeafNode`.
#![tactic(auto)]

ghost use Rattle.std.specs.Prelude.{◌≡◌, ◌≤◌, ◌<◌, IfOk};
ghost use Rattle.refusal.specs.Numbers.{number_of, numbered};
ghost use Rattle.leaf_node.specs.Good.{page_verdict};
ghost use Rattle.leaf_read.specs.Reply.{index_verdict, range_verdict, key_reply, value_reply, size_reply, get_reply};

use leaf_node::{Cell, LeafNode, PAGE, Size, search};
use refusal::Refusal;

// ---- reading by index

// A page that has record i.
fn with_record(page: &[u8], size: Size, i: usize) -> Result<LeafNode<'_>, Refusal>
    ensures number { number_of result ≡ index_verdict size.bytes page.now i }
    ensures node { IfOk result (λ node. (node.page.now ≡ page.now) × (i < node.n)) }
{
    let node = LeafNode::new(page, size)?; // Nos. 1 to 5 come first
    if node.n <= i {
        return Err(Refusal::NoSuchIndex);
    }
    Ok(node)
}

// A page that has records `from` up to `to`, at least one.
fn with_records(page: &[u8], size: Size, from: usize, to: usize) -> Result<LeafNode<'_>, Refusal>
    ensures number { number_of result ≡ range_verdict size.bytes page.now from to }
    ensures node { IfOk result (λ node. (node.page.now ≡ page.now) × (from ≤ to) × (to ≤ node.n)) }
{
    let node = LeafNode::new(page, size)?;
    if to <= from {
        return Err(Refusal::NoSuchIndex); // an empty range
    }
    if node.n < to {
        return Err(Refusal::NoSuchIndex); // a too long one
    }
    Ok(node)
}

// Key i.
pub fn key(page: &[u8], i: usize) -> Result<[u8; 32], Refusal>
    ensures { numbered result ≡ key_reply 4096 page.now i }
{
    let node = with_record(page, PAGE, i)?;
    Ok(*node.key(i))
}

// Value i.
pub fn value(page: &[u8], i: usize) -> Result<Cell, Refusal>
    ensures value { numbered result ≡ value_reply 4096 page.now i }
    ensures result_value { number_of result ≡ index_verdict 4096 page.now i }
{
    let node = with_record(page, PAGE, i)?;
    Ok(node.cell(i))
}

// The value bytes of a nonempty range of records.
pub fn values_size(page: &[u8], from: usize, to: usize) -> Result<usize, Refusal>
    ensures value { numbered result ≡ size_reply 4096 page.now from to }
    ensures result_value { number_of result ≡ range_verdict 4096 page.now from to }
{
    let node = with_records(page, PAGE, from, to)?;
    Ok(node.size_between(from, to))
}

// ---- reading by key

// The value of a key, or the position at which it would stand, 0 to n. The search is the free one: the page's method asks for a record,
// and a good page may have none.
pub fn get(page: &[u8], key: &[u8; 32]) -> Result<Result<Cell, usize>, Refusal>
    ensures value { numbered result ≡ get_reply 4096 page.now key.now }
    ensures result_value { number_of result ≡ page_verdict 4096 page.now }
{
    let node = LeafNode::new(page, PAGE)?;
    match search(node.page, node.n, 0, key) {
        Ok(i) => Ok(Ok(node.cell(i))),
        Err(i) => Ok(Err(i)),
    }
}
