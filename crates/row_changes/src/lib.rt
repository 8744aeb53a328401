// Document 02, M-101: changes as calls that take many are lent them, entries of 40 bytes over one buffer of values, and what is asked of them: Nos. 10, 12, 13, and the
// bodies that they insert.
#![tactic(auto)]

ghost use Rattle.std.specs.Prelude.{◌≡◌, ◌+◌, ◌≤◌, ◌<◌, leb, length};
ghost use Rattle.row_changes.specs.Packed.{key_of, is_put, flag_of, length_of, value_length};
ghost use Rattle.row_changes.specs.Tests.{sum_of, values_length, lengths_fit, keys_rising, put_bodies, size_with};

use bit_ops::{bytes_from, less};

// key 32, put, flag, mark 2, length 4, low byte first
pub type LeafChange = [u8; 40];

// ---- one change, lent as its bytes

pub fn key_of(change: &LeafChange) -> &[u8; 32]
    ensures { result.now ≡ key_of change.now }
{
    bytes_from(change, 0)
}

// Whether it has a new value; else it is a deletion.
pub fn put_at(change: &LeafChange) -> bool
    ensures { result ≡ is_put change.now }
{
    change[32] != 0
}

pub fn flag_at(change: &LeafChange) -> bool
    ensures { result ≡ flag_of change.now }
{
    change[33] != 0
}

pub fn len_at(change: &LeafChange) -> usize
    ensures { (result ≡ length_of change.now) × (result < 4294967296) }
{
    u32::from_le_bytes(*bytes_from(change, 36)) as usize
}

// What a new value takes, with `beside` bytes more; a deletion takes nothing.
fn size_with(change: &LeafChange, beside: usize) -> usize
    requires { beside ≤ 34 }
    ensures { (result ≡ size_with beside change.now) × (result < 4294967296 + beside) }
{
    let size = len_at(change) + beside;
    if !put_at(change) {
        return 0;
    }
    size
}

// The bytes that it takes of the value buffer.
pub fn value_len(change: &LeafChange) -> usize
    ensures { (result ≡ value_length change.now) × (result < 4294967296) }
{
    size_with(change, 0)
}

// ---- all of them

// Whether all of them take no more than `budget`. The sum could pass a usize, so what is left of the budget is counted down.
fn within(changes: &[LeafChange], budget: usize, beside: usize) -> bool
    requires { beside ≤ 34 }
    ensures { result ≡ leb (sum_of (size_with beside) changes.now) budget }
{
    let mut left = budget;
    for change in changes {
        let taken = size_with(change, beside);
        if left < taken {
            return false;
        }
        left -= taken;
    }
    true
}

// No. 10: whether a buffer of `len` bytes has the values of all changes.
pub fn values_there(changes: &[LeafChange], len: usize) -> bool
    ensures { result ≡ leb (values_length changes.now) len }
{
    within(changes, len, 0)
}

// Whether the bodies that all changes insert come to no more than `budget`: each new value with its pointer.
pub fn bodies_within(changes: &[LeafChange], budget: usize) -> bool
    ensures { result ≡ leb (put_bodies changes.now) budget }
{
    within(changes, budget, 34)
}

// No. 12: whether no value is longer than `most`.
pub fn lengths_fit(changes: &[LeafChange], most: usize) -> bool
    ensures { result ≡ lengths_fit most changes.now }
{
    for change in changes {
        let len = value_len(change);
        if most < len {
            return false;
        }
    }
    true
}

// No. 13: whether each key is below the next. leaf_node's test of a page stands apart: a page's keys lie between
// offsets, and there is no slice of keys that both could go over.
pub fn keys_rise(changes: &[LeafChange]) -> bool
    ensures { result ≡ keys_rising changes.now }
{
    for i in 1..changes.len() {
        if !less(key_of(&changes[i - 1]), key_of(&changes[i])) {
            return false;
        }
    }
    true
}
