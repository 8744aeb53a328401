// Document 02, M-104 and M-106: the melt sheet of a tree in a row of pages.
#![tactic(auto)]

ghost use Rattle.std.specs.Prelude.{◌≡◌, IfOk};
ghost use Rattle.refusal.specs.Numbers.{number_of};
ghost use Rattle.row_check.specs.Verdict.{row_of};
ghost use Rattle.melt_scale.specs.Steps.{empty_scale, weighed_all, Heavier};
ghost use Rattle.melt_sheet.specs.Melt.{row_records, refused_melt, melt_verdict, melt_of};
ghost use Rattle.melt_sheet.specs.Steps.{RowRight, scale_verdict};

use leaf_node::Size;
use melt_scale::{Scale, empty, weigh_page};
use melt_weight::{LeafMelt, MOST_WAX, melt};
use refusal::Refusal;
use row_check::{Row, lent_row_verdict};

// All pages of a row, s being the scale after the first i.
fn weigh_row(pages: &[u8], separators: &[[u8; 32]], tree: &[u8; 24], size: Size) -> Scale
    requires { RowRight size.bytes pages.now separators.now }
    ensures { (result ≡ weighed_all tree.now empty_scale (row_records (row_of size.bytes pages.now separators.now))) × (Heavier 16384 empty_scale result) }
{
    let mut s = empty();
    for i in 0..separators.len() {
        let from = i * size.bytes;
        let to = from + size.bytes;
        s = weigh_page(&pages[from..to], tree, s);
    }
    s
}

// Nos. 19, 20 and 24 of a tree whose weights all lie on the scale.
fn scale_verdict(s: Scale) -> Result<(), Refusal>
    ensures { number_of result ≡ scale_verdict s }
{
    if !s.known {
        return Err(Refusal::BadWeight);
    }
    if s.sprues != 1 {
        return Err(Refusal::OddTree);
    }
    if s.factors != 1 {
        return Err(Refusal::OddTree);
    }
    if MOST_WAX < s.total {
        return Err(Refusal::HeavyTree);
    }
    Ok(())
}

// The reply of a refused call: its number alone. A function and no `From`: `LeafMelt` is melt_weight's, where `melt` makes that of a sheet.
fn refused(number: u8) -> LeafMelt
    ensures { result ≡ refused_melt number }
{
    LeafMelt {
        refusal: number,
        total: 0,
        factor: 0.0,
        product: 0.0,
        melt: 0,
    }
}

// The sheet, where neither the row nor the tree is refused.
fn melted(
    pages: &[u8],
    separators: &[[u8; 32]],
    tree: &[u8; 24],
    size: Size,
) -> Result<LeafMelt, Refusal>
    ensures number { number_of result ≡ melt_verdict size.bytes pages.now separators.now tree.now }
    ensures sheet { IfOk result (λ sheet. sheet ≡ melt_of size.bytes pages.now separators.now tree.now) }
{
    lent_row_verdict(Row { pages, separators }, size)?;
    let s = weigh_row(pages, separators, tree, size);
    scale_verdict(s)?;
    Ok(melt(s.total, s.factor))
}

// The melt sheet of the tree that these 24 key bytes name, in a row of pages of this size.
pub fn sheet(pages: &[u8], separators: &[[u8; 32]], tree: &[u8; 24], size: Size) -> LeafMelt
    ensures { result ≡ melt_of size.bytes pages.now separators.now tree.now }
{
    match melted(pages, separators, tree, size) {
        Ok(sheet) => sheet,
        Err(refusal) => refused(u8::from(refusal)),
    }
}
