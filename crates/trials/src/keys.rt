// The trials of `separate`.
ghost use Rattle.std.specs.Prelude.{◌≡◌, ◌∷◌, replicate};

use crate::line::{close, say_reply};
use leaf_updater::leaf_separate;
use std::io;

// A key that starts with x, zeros after.
pub(crate) fn key_from(x: u8) -> [u8; 32]
    ensures { result ≡ x ∷ replicate 31 0 }
{
    let mut key = [0u8; 32];
    key[0] = x;
    key
}

// A key that starts with x and y, zeros after.
pub(crate) fn key_of(x: u8, y: u8) -> [u8; 32] {
    let mut key = [0u8; 32];
    key[0] = x;
    key[1] = y;
    key
}

// Whether all bytes but the first are zero.
fn zeros_after(key: &[u8; 32]) -> bool {
    key[1..].iter().all(|x| *x == 0)
}

// A refusal, or the byte with which the separator starts.
fn say_separator(rt: &impl Print, reply: u8, first: u8) -> io::Result<()> {
    if reply != 0 {
        return say_reply(rt, reply);
    }
    print!(rt; "starts {first:02x}")
}

// `separate` of keys that start with a and b: refused by `refusal` (0: accepted), and what it was lent then starts with x.
fn separate_trial(
    rt: &impl Print,
    label: &str,
    a: u8,
    b: u8,
    refusal: u8,
    x: u8,
) -> io::Result<()> {
    print!(rt; "{label:<45}")?;
    let mut out = key_from(0xee);
    let reply = leaf_separate(&key_from(a), &key_from(b), &mut out);
    say_separator(rt, reply, out[0])?;
    close(rt, (reply == refusal) & ((out[0] == x) & zeros_after(&out)))
}

pub(crate) fn run(rt: &impl Print) -> io::Result<()> {
    separate_trial(
        rt,
        "* separate, keys starting 10 and 13",
        0x10,
        0x13,
        0,
        0x12,
    )?;
    separate_trial(
        rt,
        "* separate, keys starting 00 and 80",
        0x00,
        0x80,
        0,
        0x80,
    )?;
    separate_trial(
        rt,
        "  separate, the other way round, 13 and 10",
        0x13,
        0x10,
        0,
        0x10,
    )?;
    separate_trial(rt, "  separate, equal keys", 0x10, 0x10, 11, 0xee)
}
