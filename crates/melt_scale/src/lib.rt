// Document 02, M-104: the weights of one tree in a page, added up.
#![tactic(auto)]

ghost use Rattle.std.specs.Prelude.{◌≡◌, ◌≤◌, ◌<◌, length, take};
ghost use Rattle.leaf_node.specs.Page.{count, record_at, records};
ghost use Rattle.leaf_node.specs.Steps.{Laid};
ghost use Rattle.leaf_work.specs.Tests.{same_bytes};
ghost use Rattle.melt_weight.specs.Weight.{WeightRight};
ghost use Rattle.melt_scale.specs.Steps.{empty_scale, weighed, weighed_record, weighed_all, record_room, page_room, Light, Heavier};

use leaf_node::{cell_at, count_of, key_at};
use melt_weight::{Weight, read};

// What the weights read so far come to.
#[derive(Clone, Copy, Debug)]
pub struct Scale {
    // none of them was unknown: the others are still added up behind one that is
    pub known: bool,
    // pieces and sprues, in milligrams
    pub total: u64,
    pub sprues: usize,
    pub factors: usize,
    // the last factor
    pub factor: f64,
}

// The scale with nothing on it.
pub fn empty() -> Scale
    ensures { result ≡ empty_scale }
{
    Scale {
        known: true,
        total: 0,
        sprues: 0,
        factors: 0,
        factor: 1.0,
    }
}

// One weight more. An unknown one is remembered, and the others are still added up.
fn weigh(at: Scale, weight: Option<Weight>) -> Scale
    requires { (Light record_room at) × (WeightRight weight) }
    ensures { (result ≡ weighed at weight) × (Heavier 1 at result) }
{
    match weight {
        Some(Weight::Piece(wax)) => Scale {
            total: at.total + wax,
            ..at
        },
        Some(Weight::Sprue(wax)) => Scale {
            total: at.total + wax,
            sprues: at.sprues + 1,
            ..at
        },
        Some(Weight::Factor(factor)) => Scale {
            factors: at.factors + 1,
            factor,
            ..at
        },
        None => Scale { known: false, ..at },
    }
}

// Whether a key's first 24 bytes are the tree's.
fn names(key: &[u8; 32], tree: &[u8; 24]) -> bool
    ensures { result ≡ same_bytes (take 24 key.now) tree.now }
{
    key.starts_with(tree)
}

// Record i of a page, laid on the scale if it is a weight of the tree. This and the next function take a page and no `LeafNode`, since
// they ask no more of it than that its records are laid.
fn weigh_record(page: &[u8], i: usize, tree: &[u8; 24], at: Scale) -> Scale
    requires { (Laid page.now (count page.now)) × (i < count page.now) × (Light record_room at) }
    ensures { (result ≡ weighed_record tree.now at (record_at page.now i)) × (Heavier 1 at result) }
{
    let cell = cell_at(page, i);
    if cell.flag {
        return at;
    }
    if !names(key_at(page, i), tree) {
        return at;
    }
    let from = cell.offset;
    let to = from + cell.len;
    weigh(at, read(&page[from..to]))
}

// All records of a page, s being the scale after the first i.
pub fn weigh_page(page: &[u8], tree: &[u8; 24], at: Scale) -> Scale
    requires { (Laid page.now (count page.now)) × (Light page_room at) }
    ensures { (result ≡ weighed_all tree.now at (records page.now)) × (Heavier (count page.now) at result) }
{
    let mut s = at;
    for i in 0..count_of(page) {
        s = weigh_record(page, i, tree, s);
    }
    s
}
