// The trials of digests: values are put into a work, and the leaves that it then gives are said by their bodies.
ghost use Rattle.std.specs.Prelude.{◌<◌};

use crate::keys::key_of;
use crate::line::{close, say_reply};
use crate::works::{new_list, open, page_of};
use leaf_digest::LeafGave;
use leaf_updater::{leaf_digest, leaf_ingest, leaf_page_values_size};
use leaf_work::{Entry, Work};
use std::io;

// `count` new values: `value` under the first keys, which start with 10 (`first` of them), and `last` under the others, which start with 20.
#[derive(Clone, Copy)]
struct Values<'a> {
    count: u8,
    first: u8,
    value: &'a [u8],
    last: &'a [u8],
}

impl<'a> Values<'a> {
    // The same value for n keys that start with 10.
    fn all(n: u8, value: &'a [u8]) -> Self {
        Self {
            count: n,
            first: n,
            value,
            last: value,
        }
    }

    // The key of value i.
    fn key(self, i: u8) -> [u8; 32] {
        if i < self.first {
            return key_of(0x10, i);
        }
        key_of(0x20, i)
    }

    fn value(self, i: u8) -> &'a [u8] {
        if i < self.first {
            return self.value;
        }
        self.last
    }

    fn put_all(self, work: &mut Work, list: &mut [Entry], store: &mut [u8], page: &[u8]) {
        for i in 0..self.count {
            leaf_ingest(work, list, store, page, &self.key(i), 1, 0, self.value(i));
        }
    }
}

// An opening, with a cutoff where `cut` is set; so many values, and a digest.
fn digested(base: Option<&[u8]>, cut: bool, values: Values<'_>, area: &mut [u8]) -> LeafGave {
    let page = page_of(base);
    let mut work = Work::default();
    let mut list = new_list();
    let mut store = [0u8; 9000];
    let mut tickets = [0u8; 260];
    open(&mut work, 0, base, cut, &mut list, &mut store);
    values.put_all(&mut work, &mut list, &mut store, page);
    leaf_digest(&mut work, &mut list, &mut store, page, area, &mut tickets)
}

// n, which is below 256 in a good page.
fn count_of(page: &[u8]) -> usize
    ensures { result < 256 }
{
    if page.len() == 0 {
        return 0;
    }
    usize::from(page[0])
}

// The body of a leaf, by its page.
fn body(page: &[u8]) -> usize {
    let n = count_of(page);
    let size = leaf_page_values_size(page, 0, n);
    let bytes = size.bytes;
    if bytes < 4097 {
        return 34 * n + bytes;
    }
    0
}

// Says the leaves that a digest gave; whether they have these bodies.
fn say_bodies(rt: &impl Print, leaves: usize, area: &[u8], stated: &[usize]) -> io::Result<bool> {
    let mut right = leaves == stated.len();
    for i in 0..leaves.min(area.len() / 4096) {
        let b = body(&area[4096 * i..4096 * i + 4096]);
        print!(rt; "leaf of {b}  ")?;
        right &= stated.get(i).copied() == Some(b);
    }
    Ok(right)
}

// Says what a digest gave; whether it gave leaves with these bodies, and asks for a merge where `waiting` is set.
fn say_leaves(
    rt: &impl Print,
    after: LeafGave,
    area: &[u8],
    stated: &[usize],
    waiting: u8,
) -> io::Result<bool> {
    let right = say_bodies(rt, after.leaves, area, stated)?;
    if after.waiting != 0 {
        print!(rt; "merge request")?;
    }
    Ok(right & ((after.refusal == 0) & (after.waiting == waiting)))
}

// No base, and n values.
fn values_trial(
    rt: &impl Print,
    label: &str,
    n: u8,
    value: &[u8],
    stated: &[usize],
) -> io::Result<()> {
    print!(rt; "{label:<45}")?;
    let mut area = [0u8; 16384];
    let after = digested(None, false, Values::all(n, value), &mut area);
    let right = say_leaves(rt, after, &area, stated, 0)?;
    close(rt, right)
}

// An empty base with a cutoff, and two values.
fn merge_trial<'a>(
    rt: &impl Print,
    label: &str,
    value: &'a [u8],
    last: &'a [u8],
    stated: &[usize],
    waiting: u8,
) -> io::Result<()> {
    print!(rt; "{label:<45}")?;
    let mut area = [0u8; 16384];
    let values = Values {
        count: 2,
        first: 1,
        value,
        last,
    };
    let after = digested(Some(&[0u8; 4096]), true, values, &mut area);
    let right = say_leaves(rt, after, &area, stated, waiting)?;
    close(rt, right)
}

// Two inserts before a base.
fn inserts_before(rt: &impl Print, page: &[u8]) -> io::Result<bool> {
    let value = [7u8; 1332];
    let mut area = [0u8; 16384];
    let after = digested(Some(page), false, Values::all(2, &value), &mut area);
    say_leaves(rt, after, &area, &[2732, 4092], 0)
}

// The page of three values of 1,330, whose keys come last, is the base of two inserts before them.
fn inserts_before_a_base(rt: &impl Print) -> io::Result<()> {
    print!(rt; "* two of 1,332 before a base of three 1,330  ")?;
    let mut area = [0u8; 16384];
    let value = [7u8; 1330];
    let values = Values {
        count: 3,
        first: 0,
        value: &value,
        last: &value,
    };
    let base = digested(None, false, values, &mut area);
    let right = inserts_before(rt, &area[0..4096])?;
    close(rt, right & (base.leaves == 1))
}

// The area has room for three pages, and four are asked for.
fn short_area(rt: &impl Print) -> io::Result<()> {
    print!(rt; "* the same, four pages asked, area of three  ")?;
    let mut area = [0u8; 12288];
    let value = [7u8; 1332];
    let after = digested(None, false, Values::all(5, &value), &mut area);
    say_reply(rt, after.refusal)?;
    close(rt, after.refusal == 17)
}

pub(crate) fn run(rt: &impl Print) -> io::Result<()> {
    values_trial(rt, "* three values of 1,330", 3, &[7u8; 1330], &[4092])?;
    values_trial(rt, "* three of 1,331", 3, &[7u8; 1331], &[2730, 1365])?;
    values_trial(rt, "* four of 1,332", 4, &[7u8; 1332], &[2732, 2732])?;
    values_trial(rt, "* five of 1,332", 5, &[7u8; 1332], &[2732, 2732, 1366])?;
    short_area(rt)?;
    values_trial(rt, "* six of 1,200", 6, &[7u8; 1200], &[3702, 3702])?;
    merge_trial(
        rt,
        "* empty base with cutoff, 989 and 990",
        &[7u8; 989],
        &[7u8; 990],
        &[2047],
        0,
    )?;
    merge_trial(
        rt,
        "* the same, 989 twice",
        &[7u8; 989],
        &[7u8; 989],
        &[],
        1,
    )?;
    inserts_before_a_base(rt)
}
