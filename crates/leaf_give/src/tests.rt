// The tickets of leaves whose separator is ready made: kind 1, separator and cutoff, or kind 2 and separator.
use crate::{Progress, give_ticket};
use leaf_cut::{Cursor, Ended, Gauge, Taken};
use std::test::Fail;

const OWN: [u8; 32] = [9; 32];

const BEHIND: [u8; 32] = [31; 32];

const CUTOFF: [u8; 32] = [50; 32];

// A leaf of three records with 6 bytes, off four with 7.
const LEAF: Taken = Taken {
    end: Ended {
        cut: true,
        leaf: Gauge { count: 3, bytes: 6 },
    },
    at: Cursor { entry: 0, skip: 3 },
};

// Before it one leaf was given, whose ticket has bytes 0 to 64.
const BEFORE: Progress = Progress {
    at: Cursor { entry: 0, skip: 0 },
    left: Gauge { count: 4, bytes: 7 },
    leaves: 1,
    place: 65,
    separator: OWN,
};

#[test]
fn the_ticket_has_the_separator_behind_the_leaf(rt: HostRuntime) -> Result<(), Fail> {
    let mut tickets = [7u8; 200];
    let p = give_ticket(BEFORE, LEAF, Some(&BEHIND), Some(&CUTOFF), &mut tickets);
    assert_eq!(rt;
        (p.leaves, p.at.skip, p.left.count, p.left.bytes),
        (2, 3, 1, 1)
    );
    assert_eq!(rt;
        (p.place, tickets[64], tickets[65], tickets[130]),
        (130, 7, 1, 7)
    );
    assert_eq!(rt; &tickets[66..98], &OWN[..]);
    assert_eq!(rt; &tickets[98..130], &BEHIND[..]);
    assert_eq!(rt; &p.separator[..], &BEHIND[..]);
    Ok(())
}

#[test]
fn the_ticket_of_the_last_leaf_has_the_cutoff(rt: HostRuntime) -> Result<(), Fail> {
    let mut tickets = [7u8; 200];
    let p = give_ticket(BEFORE, LEAF, None, Some(&CUTOFF), &mut tickets);
    assert_eq!(rt; (p.place, tickets[65]), (130, 1));
    assert_eq!(rt; &tickets[66..98], &OWN[..]);
    assert_eq!(rt; &tickets[98..130], &CUTOFF[..]);
    assert_eq!(rt; &p.separator[..], &OWN[..]);
    Ok(())
}

#[test]
fn the_ticket_has_no_cutoff_where_there_is_none(rt: HostRuntime) -> Result<(), Fail> {
    let mut tickets = [7u8; 200];
    let p = give_ticket(BEFORE, LEAF, None, None, &mut tickets);
    assert_eq!(rt; (p.place, tickets[65], tickets[98]), (98, 2, 7));
    assert_eq!(rt; &tickets[66..98], &OWN[..]);
    assert_eq!(rt; &p.separator[..], &OWN[..]);
    Ok(())
}
