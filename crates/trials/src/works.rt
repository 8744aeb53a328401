// The trials of works.
use crate::keys::key_from;
use crate::line::{close, say_reply};
use crate::pages::flagged_pair;
use leaf_entries::blank_entry;
use leaf_take::LeafReport;
use leaf_updater::{leaf_ingest, leaf_open};
use leaf_work::{Entry, Work};
use std::io;

// A list that an opening takes.
pub(crate) fn new_list() -> [Entry; 121] {
    [blank_entry(); 121]
}

// The page that a call is lent: the base, or where there is none a byte, which is ignored.
pub(crate) fn page_of<'a>(base: Option<&'a [u8]>) -> &'a [u8] {
    base.unwrap_or(&[0u8; 1])
}

// An opening, with a cutoff where `cut` is set, in the mode that reports every dropped flagged record (1) or in the Rust's (0): the refusal.
// The calls are few and large, so each has a function of its own.
pub(crate) fn open(
    work: &mut Work,
    mode: u8,
    base: Option<&[u8]>,
    cut: bool,
    list: &mut [Entry],
    store: &mut [u8],
) -> u8 {
    leaf_open(
        work,
        list,
        store,
        mode,
        u8::from(base.is_some()),
        page_of(base),
        &[0u8; 32],
        u8::from(cut),
        &[0xffu8; 32],
    )
}

// An opening of a work without a base.
fn opens(list: &mut [Entry]) -> u8 {
    let mut work = Work::default();
    let mut store = [0u8; 4096];
    open(&mut work, 0, None, false, list, &mut store)
}

fn list_of_120(rt: &impl Print) -> io::Result<()> {
    print!(rt; "{:<45}", "  list of 120")?;
    let mut list = [blank_entry(); 120];
    let refusal = opens(&mut list);
    say_reply(rt, refusal)?;
    close(rt, refusal == 7)
}

fn list_of_121(rt: &impl Print) -> io::Result<()> {
    print!(rt; "{:<45}", "  list of 121")?;
    let mut list = new_list();
    let refusal = opens(&mut list);
    say_reply(rt, refusal)?;
    close(rt, refusal == 0)
}

// An opening, and an ingest: of this value, or of a deletion where there is none.
fn ingested(mode: u8, base: Option<&[u8]>, key: &[u8; 32], value: Option<&[u8]>) -> LeafReport {
    let mut list = new_list();
    let mut store = [0u8; 4096];
    let mut work = Work::default();
    open(&mut work, mode, base, false, &mut list, &mut store);
    leaf_ingest(
        &mut work,
        &mut list,
        &mut store,
        page_of(base),
        key,
        u8::from(value.is_some()),
        0,
        value.unwrap_or(&[]),
    )
}

// A new value in a work without a base.
fn value_trial(rt: &impl Print, label: &str, value: &[u8], refusal: u8) -> io::Result<()> {
    print!(rt; "{label:<45}")?;
    let after = ingested(0, None, &[0u8; 32], Some(value));
    say_reply(rt, after.refusal)?;
    close(rt, after.refusal == refusal)
}

fn say_report(rt: &impl Print, reported: u8) -> io::Result<()> {
    if reported == 0 {
        print!(rt; "nothing reported")
    } else {
        print!(rt; "reported")
    }
}

// A base of two flagged records, of which the one with this key is deleted.
fn report_trial(rt: &impl Print, label: &str, mode: u8, first: u8, reported: u8) -> io::Result<()> {
    print!(rt; "{label:<45}")?;
    let page = flagged_pair();
    let after = ingested(mode, Some(&page), &key_from(first), None);
    say_report(rt, after.reported)?;
    close(rt, (after.refusal == 0) & (after.reported == reported))
}

pub(crate) fn run(rt: &impl Print) -> io::Result<()> {
    list_of_120(rt)?;
    list_of_121(rt)?;
    value_trial(rt, "  new value of 1,332", &[7u8; 1332], 0)?;
    value_trial(rt, "  new value of 1,333", &[7u8; 1333], 12)?;
    report_trial(rt, "  flagged first base record deleted", 0, 0, 0)?;
    report_trial(rt, "  flagged second one deleted first", 0, 1, 1)
}

// Document 02, M-100: the same where every dropped flagged record is reported.
pub(crate) fn reports(rt: &impl Print) -> io::Result<()> {
    report_trial(rt, "M-100: flagged first base record deleted", 1, 0, 1)?;
    report_trial(rt, "M-100: flagged second one deleted first", 1, 1, 1)
}
