// `separate` and `prefix_len` against records of 99 bytes: a, b, the reply, the shared bits, the separator.
use crate::bytes::{byte, key, number, same};
use crate::reading::read_full;
use crate::score::Score;
use leaf_updater::{leaf_prefix_len, leaf_separate};
use std::io;
use std::io::Read;

// A refused call leaves the lent key, here zeros, as it was; so the record has zeros too.
fn passes(v: &[u8; 99]) -> bool {
    let a = key(v, 0);
    let b = key(v, 32);
    let mut out = [0u8; 32];
    let reply = leaf_separate(&a, &b, &mut out);
    let shared = leaf_prefix_len(&a, &b);
    let said = (reply == byte(v, 64)) & (shared == number(v, 65));
    said & same(v, 67, &out)
}

// The next record of the file.
pub(crate) fn next<R: Read>(file: &mut R, t: Score) -> io::Result<Score> {
    let mut v = [0u8; 99];
    let n = read_full(file, &mut v)?;
    if n != 99 {
        return Ok(t.end(n));
    }
    Ok(t.count(passes(&v)))
}
