// Keys of 32 bytes: their order, the leading bits that two share, and the separator of two.
// Ported from nomt/src/beatree/ops/bit_ops.rs of thrumdev/nomt: `prefix_len` and `separate`.
#![tactic(auto)]

ghost use Rattle.std.specs.Prelude.{◌≡◌, ◌+◌, ◌-◌, ◌^◌, ◌<◌, ◌≤◌, length, take, drop};
ghost use Rattle.refusal.specs.Numbers.{number_of};
ghost use Rattle.bit_ops.specs.Key.{Key, num, lt_key, eq_key};
ghost use Rattle.bit_ops.specs.Separate.{shared_bits, separate_verdict, separate_leaves};
ghost use Rattle.bit_ops.specs.Steps.{word_at, Differing, cut_after};

use refusal::Refusal;

// The N bytes from `at` on.
pub fn bytes_from<const N: usize>(bytes: &[u8], at: usize) -> &[u8; N]
    requires { at + N ≤ length bytes.now }
    ensures { result.now ≡ take N (drop at bytes.now) }
{
    let rest = &bytes[at..];
    rest.first_chunk().unwrap()
}

// The number that eight bytes from `at` on spell.
pub fn word_from(bytes: &[u8], at: usize) -> u64
    requires { at + 8 ≤ length bytes.now }
    ensures { result ≡ num (take 8 (drop at bytes.now)) }
{
    u64::from_be_bytes(*bytes_from(bytes, at))
}

// Word i of a key, so that keys are compared by eight bytes at a time.
fn word_at(key: &[u8; 32], i: usize) -> u64
    requires { i < 4 }
    ensures { result ≡ word_at key.now i }
{
    word_from(key, 8 * i)
}

// Two keys at the first word in which they differ, or at the last one: which word, and what each key has there.
#[derive(Clone, Copy)]
struct Difference {
    at: usize,
    x: u64,
    y: u64,
}

fn first_difference(a: &[u8; 32], b: &[u8; 32]) -> Difference
    ensures { Differing a.now b.now result.at result.x result.y }
{
    for i in 0..3 {
        let x = word_at(a, i);
        let y = word_at(b, i);
        if x != y {
            return Difference { at: i, x, y };
        }
    }
    Difference {
        at: 3,
        x: word_at(a, 3),
        y: word_at(b, 3),
    }
}

// Whether a comes before b. The library's order of arrays says the same and goes byte by byte.
pub fn less(a: &[u8; 32], b: &[u8; 32]) -> bool
    ensures { result ≡ lt_key a.now b.now }
{
    let d = first_difference(a, b);
    d.x < d.y
}

// Whether a and b are one key.
pub fn equal(a: &[u8; 32], b: &[u8; 32]) -> bool
    ensures { (result ≡ eq_key a.now b.now) × Key a.now × Key b.now }
{
    let d = first_difference(a, b);
    d.x == d.y
}

// How many leading bits two keys share: 256 for equal ones, which need no case of their own: of their last words no bit differs.
pub fn prefix_len(a: &[u8; 32], b: &[u8; 32]) -> usize
    ensures { (result ≡ shared_bits a.now b.now) × Key a.now × Key b.now }
{
    let d = first_difference(a, b);
    64 * d.at + u64::leading_zeros(d.x ^ d.y) as usize
}

// The value of a byte's bit r, counted from the top.
fn bit_value(r: usize) -> u8
    requires { r < 8 }
    ensures { (result ≡ 2 ^ (7 - r)) × (0 < result) }
{
    128u8 >> r
}

// Keeps a key's bits up to and with bit n, and clears the later ones.
fn cut_after(key: &mut [u8; 32], n: usize)
    requires { n < 256 }
    ensures { key.new ≡ cut_after key.old n }
{
    let i = n / 8;
    let y = key[i];
    let last = bit_value(n % 8);
    key[i] = y - y % last;
    key[i + 1..].fill(0);
}

// Writes the separator of a and b into out: b's leading bits, one more than the two share, then zeros. Equal keys are
// refused, and out then keeps what it held.
pub fn separate(a: &[u8; 32], b: &[u8; 32], out: &mut [u8; 32]) -> Result<(), Refusal>
    ensures value { number_of result ≡ separate_verdict a.now b.now }
    ensures out_after { out.new ≡ separate_leaves a.now b.now out.old }
{
    let shared = prefix_len(a, b);
    if 256 <= shared {
        return Err(Refusal::EqualKeys);
    }
    *out = *b;
    cut_after(out, shared);
    Ok(())
}
