// Document 02, M-104 and M-106: a weight record read, and the wax total times the factor, rounded once.
#![tactic(auto)]

ghost use Rattle.std.specs.Prelude.{◌≡◌, ◌+◌, ◌^◌, ◌<◌, ◌≤◌, false, T, length, take, drop, pos};
ghost use Rattle.std.specs.Float.Ieee.{le};
ghost use Rattle.std.specs.Float.{fin};
ghost use Rattle.melt_weight.specs.Weight.{low, factor_of, long_weight_of, weight_of, FactorRight, WeightRight};
ghost use Rattle.melt_weight.specs.Sheet.{whole_above, sheet_of};

use bit_ops::bytes_from;

// The most milligrams of a weight of 64 bits, and of a tree.
pub const MOST_WAX: u64 = 1099511627776;

// A weight record's value, read: a piece or a sprue in milligrams, or a factor; three cases that the papers name, and so no `Option` or
// `Result`.
#[derive(Clone, Copy, Debug)]
pub enum Weight {
    Piece(u64),
    Sprue(u64),
    Factor(f64),
}

// The melt of a tree: its wax in milligrams, its alloy factor, their product rounded once, and the whole milligrams not below it.
// All but the refusal are 0 where there is one.
#[repr(C)]
#[derive(Clone, Copy, Debug)]
pub struct LeafMelt {
    pub refusal: u8,
    pub total: u64,
    pub factor: f64,
    pub product: f64,
    pub melt: u64,
}

// ---- a value

// The number that four bytes from `at` on spell, low byte first.
fn low_half(bytes: &[u8], at: usize) -> u64
    requires { at + 4 ≤ length bytes.now }
    ensures { (result ≡ low (take 4 (drop at bytes.now))) × (result < 4294967296) }
{
    u64::from(u32::from_le_bytes(*bytes_from(bytes, at)))
}

// The number that eight bytes from `at` on spell, low byte first.
fn low_word(bytes: &[u8], at: usize) -> u64
    requires { at + 8 ≤ length bytes.now }
    ensures { result ≡ low (take 8 (drop at bytes.now)) }
{
    u64::from_le_bytes(*bytes_from(bytes, at))
}

// The factor of these bits, if it is one from 1 to 32. The bits are compared, so that no NaN is made.
fn factor_of(bits: u64) -> Option<Weight>
    ensures { (result ≡ factor_of bits) × WeightRight result }
{
    if bits < 4607182418800017408 {
        return None;
    }
    if 4629700416936869888 < bits {
        return None;
    }
    Some(Weight::Factor(f64::from_bits(bits)))
}

// The weight that nine bytes are, of kind 4 or 5, at most 2 to the 40th.
fn long_weight(value: &[u8]) -> Option<Weight>
    requires { length value.now ≡ 9 }
    ensures { (result ≡ long_weight_of value.now) × WeightRight result }
{
    let wax = low_word(value, 1);
    if MOST_WAX < wax {
        return None;
    }
    let kind = value[0];
    if kind == 4 {
        return Some(Weight::Piece(wax));
    }
    if kind == 5 {
        return Some(Weight::Sprue(wax));
    }
    None
}

// The weight that a value is, by its kind byte and its fixed body.
pub fn read(value: &[u8]) -> Option<Weight>
    ensures { (result ≡ weight_of value.now) × WeightRight result }
{
    if value.len() == 5 {
        let kind = value[0];
        if kind == 1 {
            return Some(Weight::Piece(low_half(value, 1)));
        }
        if kind == 2 {
            return Some(Weight::Sprue(low_half(value, 1)));
        }
        return None;
    }
    if value.len() == 9 {
        let kind = value[0];
        if kind == 3 {
            return factor_of(low_word(value, 1));
        }
        return long_weight(value);
    }
    None
}

// ---- the sheet

// The smallest whole number not below x.
fn whole_above(x: f64) -> u64
    requires { T (le (fin false 1 (pos 0)) x) × T (le x (fin false 1 (pos 51))) }
    ensures { result ≡ whole_above x }
{
    let whole = std::num::truncating_f64_to_u64(x);
    let back = whole as f64;
    if x <= back {
        return whole;
    }
    whole + 1
}

// The sheet of a wax total and a factor from 1 to 32: the total is a float exactly, so that only the product rounds.
pub fn melt(total: u64, factor: f64) -> LeafMelt
    requires { (total ≤ 2 ^ 46) × FactorRight factor }
    ensures { result ≡ sheet_of total factor }
{
    let wax = total as f64;
    let product = wax * factor;
    let unmelted = LeafMelt {
        refusal: 0,
        total,
        factor,
        product,
        melt: 0,
    };
    if total == 0 {
        return unmelted;
    }
    LeafMelt {
        melt: whole_above(product),
        ..unmelted
    }
}
