// The page calls against records of 5,969 bytes: a page, its refusal, 24 questions of 78 bytes with their answers; and the
// builder against records of 8,198 bytes: a page, a range in two parts, the page that is built of it.
use crate::bytes::{byte, key, number, same};
use crate::reading::read_full;
use crate::score::Score;
use leaf_page::LeafValue;
use leaf_updater::{
    leaf_page_check, leaf_page_get, leaf_page_key, leaf_page_rebuild, leaf_page_value,
    leaf_page_values_size,
};
use std::io;
use std::io::Read;

// Whether a value's reply is the recorded one.
fn same_value(v: &[u8], r: LeafValue) -> bool {
    let said = (r.refusal == byte(v, 37)) & (r.absent == byte(v, 38));
    let place = (r.offset == number(v, 40)) & (r.len == number(v, 42));
    said & ((r.flag == byte(v, 39)) & (place & (r.position == number(v, 44))))
}

fn same_key_read(page: &[u8], v: &[u8]) -> bool {
    let r = leaf_page_key(page, number(v, 1));
    let key = r.key;
    (r.refusal == byte(v, 37)) & same(v, 46, &key)
}

fn same_size(page: &[u8], v: &[u8]) -> bool {
    let r = leaf_page_values_size(page, number(v, 1), number(v, 3));
    (r.refusal == byte(v, 37)) & (r.bytes == number(v, 42))
}

fn same_sought(page: &[u8], v: &[u8]) -> bool {
    let sought = key(v, 5);
    same_value(v, leaf_page_get(page, &sought))
}

// Asks the question that these bytes are.
fn passes(page: &[u8], v: &[u8]) -> bool {
    match byte(v, 0) {
        0 => same_key_read(page, v),
        1 => same_value(v, leaf_page_value(page, number(v, 1))),
        2 => same_size(page, v),
        _ => same_sought(page, v),
    }
}

fn ask_all(v: &[u8; 5969], t: Score) -> Score {
    let page = &v[..4096];
    let mut out = t.count(leaf_page_check(page) == byte(v, 4096));
    for question in v[4097..].chunks_exact(78) {
        out = out.count(passes(page, question));
    }
    out
}

// The next record of the file.
pub(crate) fn next<R: Read>(file: &mut R, t: Score) -> io::Result<Score> {
    let mut v = [0u8; 5969];
    let n = read_full(file, &mut v)?;
    if n != 5969 {
        return Ok(t.end(n));
    }
    Ok(ask_all(&v, t))
}

// Whether the page that is built of the record's range is the recorded one.
fn same_build(v: &[u8], page: &[u8]) -> bool {
    let from = number(v, 4096);
    let mid = number(v, 4098);
    let to = number(v, 4100);
    let mut out = [0xeeu8; 4096];
    let reply = leaf_page_rebuild(page, from, mid, to, &mut out);
    (reply == 0) & same(v, 4102, &out)
}

// The next record of a page that is built.
pub(crate) fn next_build<R: Read>(file: &mut R, t: Score) -> io::Result<Score> {
    let mut v = [0u8; 8198];
    let n = read_full(file, &mut v)?;
    if n != 8198 {
        return Ok(t.end(n));
    }
    let whole = &v[..];
    Ok(t.count(same_build(whole, &whole[0..4096])))
}
