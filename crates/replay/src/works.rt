// Calls on a work against records of 4,205 bytes, in the order in which they stand: a page that is lent from now on, or a call with its
// answer, and behind a digest the leaves that it gave. compare/src/record/sequences.rs has the table of its bytes.
ghost use Rattle.std.specs.Prelude.{◌≡◌, false, cond, ◌+◌, ◌≤◌, ◌<◌, length, ltb};
ghost use Rattle.replay.specs.Answers.{page_lent, same_report, same_digest, only_given, same_leaf};
ghost use Rattle.replay.specs.Counts.{Counted};

use crate::bytes::{HELD, byte, held, key, number, same, same_part};
use crate::reading::read_full;
use crate::score::Score;
use leaf_digest::LeafGave;
use leaf_entries::blank_entry;
use leaf_take::LeafReport;
use leaf_updater::{leaf_digest, leaf_ingest, leaf_next_base, leaf_open, leaf_remove_cutoff};
use leaf_work::{Entry, Work};
use std::io;
use std::io::Read;

const RECORD: usize = 4205;

const PAGE: usize = 4096;

// What is lent to a digest at most.
const AREA: usize = 20480;

const TICKET_BYTES: usize = 325;

// The kinds of records: a page that is lent from now on, the calls, and a leaf that a digest gave.
const LENT: u8 = 0;

const OPEN: u8 = 1;

const INGEST: u8 = 2;

const DIGEST: u8 = 3;

const NEXT_BASE: u8 = 4;

const REMOVE_CUTOFF: u8 = 5;

const LEAF: u8 = 6;

// Where a record has its parts.
const FIRST: usize = 1;

const SECOND: usize = 2;

const KEY: usize = 3;

const CUTOFF: usize = 35;

const LENGTH: usize = 67;

const TICKETS: usize = 69;

const REFUSAL: usize = 71;

const SAID: usize = 72;

const NUMBER: usize = 73;

const SIZE: usize = 75;

const WAIT: usize = 77;

const BODY: usize = 109;

// What goes on from record to record beside what is lent: the work record and the counts.
#[derive(Clone, Copy)]
struct Run {
    work: Work,
    score: Score,
}

impl Run {
    // Before the first opening the work record holds zeros.
    fn new(t: Score) -> Self
        ensures { result.score ≡ t }
    {
        Self {
            work: Work::default(),
            score: t,
        }
    }

    // An answer more.
    fn count(self, passed: bool) -> Self
        ensures counted { Counted passed self.score result.score }
        ensures work_value { result.work ≡ self.work }
    {
        let mut run = self;
        run.score = run.score.count(passed);
        run
    }

    // The file's end, of which `left` bytes make no record.
    fn end(self, left: usize) -> Self
        ensures more_value { result.score.more ≡ false }
        ensures work_value { result.work ≡ self.work }
    {
        let mut run = self;
        run.score = run.score.end(left);
        run
    }
}

// Lends another page from now on.
fn lend(v: &[u8], run: Run, page: &mut [u8]) -> Run
    ensures { page.new ≡ page_lent v.now page.old }
{
    if v.len() < RECORD {
        return run.count(false);
    }
    if page.len() < PAGE {
        return run.count(false);
    }
    page[..PAGE].copy_from_slice(&v[BODY..RECORD]);
    run.count(true)
}

fn open(v: &[u8], run: Run, list: &mut [Entry], store: &mut [u8], page: &[u8]) -> Run {
    let mut run = run;
    let refusal = leaf_open(
        &mut run.work,
        list,
        store,
        0,
        byte(v, FIRST),
        page,
        &key(v, KEY),
        byte(v, SECOND),
        &key(v, CUTOFF),
    );
    run.count(refusal == byte(v, REFUSAL))
}

fn same_report(v: &[u8], reply: LeafReport) -> bool
    ensures { result ≡ same_report v.now reply }
{
    let said = (reply.refusal == byte(v, REFUSAL)) & (reply.reported == byte(v, SAID));
    said & ((reply.offset == number(v, NUMBER)) & (reply.len == number(v, SIZE)))
}

fn ingest(v: &[u8], run: Run, list: &mut [Entry], store: &mut [u8], page: &[u8]) -> Run {
    let end = BODY + number(v, LENGTH);
    if v.len() < end {
        return run.count(false);
    }
    let mut run = run;
    let reply = leaf_ingest(
        &mut run.work,
        list,
        store,
        page,
        &key(v, KEY),
        byte(v, FIRST),
        byte(v, SECOND),
        &v[BODY..end],
    );
    run.count(same_report(v, reply))
}

fn next_base(v: &[u8], run: Run, list: &[Entry], store: &[u8], page: &[u8]) -> Run {
    let mut run = run;
    let refusal = leaf_next_base(
        &mut run.work,
        list,
        store,
        page,
        &key(v, KEY),
        byte(v, SECOND),
        &key(v, CUTOFF),
    );
    run.count(refusal == byte(v, REFUSAL))
}

fn remove_cutoff(v: &[u8], run: Run, list: &[Entry], store: &[u8]) -> Run {
    let mut run = run;
    let refusal = leaf_remove_cutoff(&mut run.work, list, store);
    run.count(refusal == byte(v, REFUSAL))
}

// ---- a digest, and the leaves that it gave

fn same_digest(v: &[u8], reply: LeafGave) -> bool
    ensures { result ≡ same_digest v.now reply }
{
    let cutoff = reply.cutoff;
    let said = (reply.refusal == byte(v, REFUSAL)) & (reply.waiting == byte(v, SAID));
    said & ((reply.leaves == number(v, NUMBER)) & same(v, WAIT, &cutoff))
}

// The bytes behind what a digest gave are as they were.
fn only_given(v: &[u8], area: &[u8], tickets: &[u8]) -> bool
    ensures { result ≡ only_given v.now area.now tickets.now }
{
    held(area, PAGE * number(v, NUMBER)) & held(tickets, number(v, SIZE))
}

// The place behind n bytes. One that is behind every buffer stays, so that no sum is too great.
fn behind(at: usize, n: usize) -> usize
    requires { n < 65536 }
    ensures { result ≡ cond (ltb at 65536) (at + n) at }
{
    if at < 65536 { at + n } else { at }
}

// Where the next leaf of a digest and its ticket begin, and the counts.
#[derive(Clone, Copy)]
struct Given {
    leaf: usize,
    ticket: usize,
    score: Score,
}

// The record of the next leaf, and of its ticket.
fn leaf(v: &[u8], given: Given, area: &[u8], tickets: &[u8]) -> Given
    ensures { Counted (same_leaf v.now area.now given.leaf tickets.now given.ticket) given.score result.score }
{
    let n = number(v, LENGTH);
    let page_right = same_part(v, BODY, area, given.leaf, PAGE);
    let ticket_right = same_part(v, FIRST, tickets, given.ticket, n);
    let right = (byte(v, 0) == LEAF) & (page_right & ticket_right);
    Given {
        leaf: behind(given.leaf, PAGE),
        ticket: behind(given.ticket, n),
        score: given.score.count(right),
    }
}

// A record that isn't whole ends before its page does, and so is wrong.
fn next_leaf<R: Read>(
    file: &mut R,
    given: Given,
    area: &[u8],
    tickets: &[u8],
) -> io::Result<Given> {
    let mut record = [0u8; RECORD];
    let n = read_full(file, &mut record)?;
    let whole = &record[..];
    Ok(leaf(&whole[..n], given, area, tickets))
}

// The leaves of a digest that gave n.
fn leaves<R: Read>(
    file: &mut R,
    n: usize,
    t: Score,
    area: &[u8],
    tickets: &[u8],
) -> io::Result<Score> {
    let mut given = Given {
        leaf: 0,
        ticket: 0,
        score: t,
    };
    for _ in 0..n {
        given = next_leaf(file, given, area, tickets)?;
    }
    Ok(given.score)
}

// The answer of a digest, and the leaves behind it.
fn digest_counted<R: Read>(
    file: &mut R,
    v: &[u8],
    t: Score,
    reply: LeafGave,
    area: &[u8],
    tickets: &[u8],
) -> io::Result<Score> {
    let right = same_digest(v, reply) & (lendable(v) & only_given(v, area, tickets));
    leaves(file, number(v, NUMBER), t.count(right), area, tickets)
}

// Whether both buffers have as many bytes as the record says.
fn lendable(v: &[u8]) -> bool {
    (number(v, LENGTH) <= AREA) & (number(v, TICKETS) <= TICKET_BYTES)
}

// A digest whose buffers hold the same in every byte before, and that is lent the first bytes of both.
fn digest<R: Read>(
    file: &mut R,
    v: &[u8],
    run: Run,
    list: &mut [Entry],
    store: &mut [u8],
    page: &[u8],
) -> io::Result<Run> {
    let mut area = [HELD; AREA];
    let mut tickets = [HELD; TICKET_BYTES];
    let mut run = run;
    let reply = leaf_digest(
        &mut run.work,
        list,
        store,
        page,
        &mut area[..number(v, LENGTH).min(AREA)],
        &mut tickets[..number(v, TICKETS).min(TICKET_BYTES)],
    );
    run.score = digest_counted(file, v, run.score, reply, &area, &tickets)?;
    Ok(run)
}

// ---- the records

// All calls but the digest.
fn called(v: &[u8], run: Run, list: &mut [Entry], store: &mut [u8], page: &[u8]) -> Run {
    match byte(v, 0) {
        OPEN => open(v, run, list, store, page),
        INGEST => ingest(v, run, list, store, page),
        NEXT_BASE => next_base(v, run, list, store, page),
        REMOVE_CUTOFF => remove_cutoff(v, run, list, store),
        _ => run.count(false),
    }
}

// A record by its kind.
fn replayed<R: Read>(
    file: &mut R,
    v: &[u8],
    run: Run,
    list: &mut [Entry],
    store: &mut [u8],
    page: &mut [u8],
) -> io::Result<Run> {
    match byte(v, 0) {
        LENT => Ok(lend(v, run, page)),
        DIGEST => digest(file, v, run, list, store, page),
        _ => Ok(called(v, run, list, store, page)),
    }
}

// The next record of the file, with the leaves behind it.
fn next<R: Read>(
    file: &mut R,
    run: Run,
    list: &mut [Entry],
    store: &mut [u8],
    page: &mut [u8],
) -> io::Result<Run> {
    let mut record = [0u8; RECORD];
    let n = read_full(file, &mut record)?;
    if n != RECORD {
        return Ok(run.end(n));
    }
    replayed(file, &record, run, list, store, page)
}

// All records of the file, since one goes on with what the one before it left. Nothing tells that a file ends, so the turns are counted.
pub(crate) fn all<R: Read>(file: &mut R, t: Score) -> io::Result<Score> {
    let mut list = [blank_entry(); 121];
    let mut store = [0u8; 9000];
    let mut page = [0u8; PAGE];
    let mut run = Run::new(t);
    for _ in 0..u64::MAX {
        if !run.score.more {
            break;
        }
        run = next(file, run, &mut list, &mut store, &mut page)?;
    }
    Ok(run.score)
}
