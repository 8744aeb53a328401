// A leaf page whose records can be read.
ghost use Rattle.std.specs.Prelude.{◌≡◌, [], ◌+◌, ◌≤◌, ◌<◌, length, IfOk};
ghost use Rattle.refusal.specs.Numbers.{number_of};
ghost use Rattle.leaf_node.specs.Page.{count, key_at, values_size};
ghost use Rattle.leaf_node.specs.Good.{KeysRise, page_verdict};
ghost use Rattle.leaf_node.specs.Search.{search_of};
ghost use Rattle.leaf_node.specs.Cell.{CellOf};
ghost use Rattle.leaf_node.specs.Steps.{Counted};

use crate::{Cell, Size, cell_at, count_of, key_at, search, size_between, verdict};
use refusal::Refusal;

// A page and the number of its records, which all lie in it. A page that is ignored has no bytes and no records.
#[derive(Clone, Copy)]
pub struct LeafNode<'a> {
    pub page: &'a [u8],
    pub n: usize,
    pub ghost counted: { Counted page.now n },
}

impl<'a> LeafNode<'a> {
    // A page of this size, checked.
    pub fn new(page: &'a [u8], size: Size) -> Result<LeafNode<'a>, Refusal>
        ensures number { number_of result ≡ page_verdict size.bytes page.now }
        ensures page { IfOk result (λ node. node.page.now ≡ page.now) }
    {
        verdict(page, size)?;
        Ok(LeafNode {
            page,
            n: count_of(page),
        })
    }

    // A page that is ignored, whatever it holds.
    pub fn ignored() -> LeafNode<'a>
        ensures { (result.page.now ≡ []) × (result.n ≡ 0) }
    {
        LeafNode { page: &[], n: 0 }
    }

    // Key i.
    pub fn key(self, i: usize) -> &'a [u8; 32]
        requires { i < self.n }
        ensures { result.now ≡ key_at self.entry.page.now i }
    {
        key_at(self.page, i)
    }

    // Value i: offset, length and flag.
    pub fn cell(self, i: usize) -> Cell
        requires { i < self.n }
        ensures { CellOf self.entry.page.now i result }
    {
        cell_at(self.page, i)
    }

    // The value bytes of records `from` up to `to`: their values lie one after the other.
    pub fn size_between(self, from: usize, to: usize) -> usize
        requires { (from ≤ to) × (to ≤ self.n) }
        ensures { (result ≡ values_size self.entry.page.now from to) × (result ≤ length self.entry.page.now) }
    {
        if from == to {
            return 0;
        }
        size_between(self.page, self.n, from, to)
    }

    // Where a key stands among the records from `from` on, where keys rise.
    pub fn search(self, from: usize, key: &[u8; 32]) -> Result<usize, usize>
        requires { (from < self.n) × (KeysRise self.page.now) }
        ensures { result ≡ search_of self.entry.page.now from key.now }
    {
        search(self.page, self.n, from, key)
    }
}
