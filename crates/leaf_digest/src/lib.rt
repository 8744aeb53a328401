// The digest of a work: the base that it goes over or what refuses it, the work record that it leaves, and its reply for C.
// Ported from nomt/src/beatree/ops/update/leaf_updater.rs of thrumdev/nomt: `LeafUpdater::digest`.
#![tactic(auto)]

ghost use Rattle.std.specs.Prelude.{◌≡◌, ◌&&◌, cond, ◌*◌, ◌≤◌, leb, IfOk};
ghost use Rattle.refusal.specs.Numbers.{number_of};
ghost use Rattle.leaf_node.specs.Limits.{pages_asked};
ghost use Rattle.leaf_work.specs.Tests.{is_set};
ghost use Rattle.leaf_work.specs.Lent.{regarded};
ghost use Rattle.leaf_cut.specs.Steps.{Modest};
ghost use Rattle.leaf_digest.specs.Reply.{gave_out, reply_of};
ghost use Rattle.leaf_digest.specs.Steps.{lent_digest_verdict, body_with, digest_work_by};

use leaf_check::lent_base;
use leaf_cut::{Gauge, has_pages, pending_gauge};
use leaf_node::{LeafNode, Size};
use leaf_work::{DONE, Entry, WAITING, Work};
use refusal::Refusal;

// A digest's answer in numbers, for callers in C: 0 or the refusal, whether it waits for a merge, 1 or 0, how many leaves it gave, and the
// cutoff for which it waits, else zeros.
#[repr(C)]
#[derive(Clone, Copy)]
pub struct LeafGave {
    pub refusal: u8,
    pub waiting: u8,
    pub leaves: usize,
    pub cutoff: [u8; 32],
}

// What an accepted digest gave: how many leaves, and the cutoff for which it waits where it keeps records.
#[derive(Clone, Copy)]
pub struct Given {
    pub leaves: usize,
    pub cutoff: Option<[u8; 32]>,
}

impl From<Result<Given, Refusal>> for LeafGave {
    ghost from_gives = { λ reply out. out ≡ gave_out (reply_of reply) };

    fn from(reply: Result<Given, Refusal>) -> LeafGave {
        match reply {
            Ok(
                Given {
                    leaves,
                    cutoff: Some(cutoff),
                },
            ) => LeafGave {
                refusal: 0,
                waiting: 1,
                leaves,
                cutoff,
            },
            Ok(
                Given {
                    leaves,
                    cutoff: None,
                },
            ) => LeafGave {
                refusal: 0,
                waiting: 0,
                leaves,
                cutoff: [0; 32],
            },
            Err(refusal) => LeafGave {
                refusal: u8::from(refusal),
                waiting: 0,
                leaves: 0,
                cutoff: [0; 32],
            },
        }
    }
}

// ---- the number

// Whether area and tickets have room for the pages that the digest of what is listed and of the base's rest asks for.
fn has_area(
    listed: Gauge,
    node: LeafNode,
    low: usize,
    area: usize,
    tickets: usize,
    size: Size,
) -> bool
    requires { (low ≤ node.n) × (Modest listed) }
    ensures { result ≡ (leb (pages_asked size.bytes (body_with listed node.entry.page.now low) * size.bytes) area && leb (pages_asked size.bytes (body_with listed node.entry.page.now low) * 65) tickets) }
{
    has_pages(pending_gauge(listed, node, low), area, tickets, size)
}

// The base as the work regards it, or what refuses a digest. What is lent is lent alone by C, and each is read here a single time.
pub fn digest_base<'a>(
    work: &Work,
    list: &[Entry],
    store: &[u8],
    page: &'a [u8],
    area: &[u8],
    tickets: &[u8],
    size: Size,
) -> Result<LeafNode<'a>, Refusal>
    ensures number { number_of result ≡ lent_digest_verdict size.bytes work.now list.now store.now page.now area.now tickets.now }
    ensures base { IfOk result (λ node. node.page.now ≡ regarded work.now page.now) }
{
    let node = lent_base(work, list, store, page, size)?;
    if !work.is_open() {
        return Err(Refusal::OutOfTurn);
    }
    let listed = Gauge {
        count: work.count,
        bytes: work.bytes,
    };
    if !has_area(listed, node, work.low, area.len(), tickets.len(), size) {
        return Err(Refusal::ShortArea);
    }
    Ok(node)
}

// ---- what a digest leaves behind

// The floor of a work that keeps records: its cutoff, where it has one.
fn next_floor(work: &Work) -> [u8; 32]
    ensures { result ≡ cond (is_set work.now.cut) work.now.cutoff work.now.floor }
{
    *work.cutoff().unwrap_or(&work.floor)
}

// The work record after a digest that keeps `left`, whose separator is given.
pub fn digest_work(work: &Work, left: Gauge, separator: &[u8; 32]) -> Work
    ensures { result ≡ digest_work_by work.now left separator.now }
{
    let kept = Work {
        low: 0,
        used: left.count,
        filled: left.bytes,
        count: left.count,
        bytes: left.bytes,
        ..*work
    };
    if left.count == 0 {
        return Work {
            turn: DONE,
            over: 0,
            overriding: [0; 32],
            ..kept
        };
    }
    Work {
        turn: WAITING,
        over: 1,
        overriding: *separator,
        floor: next_floor(work),
        ..kept
    }
}
