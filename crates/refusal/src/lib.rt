// Why calls refuse: a number of the papers each, beside the trade's word for it. 0 stands for an accepted call.
// `specs/Refusal.antt` has the same numbers for the definitions.
#![tactic(auto)]

ghost use Rattle.std.specs.Prelude.{◌≡◌};
ghost use Rattle.refusal.specs.Numbers.{number, number_of};

// Lowest number first: of several that apply, a call answers the lowest. The papers name each case, so it is no `Option`; a call answers a
// `Result`, whose error it is.
#[derive(Clone, Copy, Debug, PartialEq, Eq, PartialOrd, Ord)]
pub enum Refusal {
    PageLength = 1, // "cracked mould": the page isn't as long as a page
    TooManyRecords = 2, // "crowded tree": n over the most that a page takes
    BadOffsets = 3, // "loose sprue": offsets not as the page rule says
    LongPageValue = 4, // "heavy ring": a value of the page is too long
    KeysNotRising = 5, // "rings astray": the page's keys don't strictly rise
    BadBounds = 6, // "wrong flask": cutoff without base or not above the separator, or a base key outside them
    RoomLength = 7, // "wrong bench": length of the list or of the store
    Unsound = 8, // "spoiled work": the work isn't sound
    OutOfTurn = 9, // "out of turn": the call isn't allowed in this turn
    NoSuchIndex = 10, // "no such ring": no such index, or an empty or too long range
    EqualKeys = 11, // "twins": `separate` of equal keys
    LongValue = 12, // "heavy wax": the new value is too long
    KeyTooLow = 13, // "backwards": key or next separator too low
    KeyPastCutoff = 14, // "other flask": key at or above the cutoff
    ListFull = 15, // "list full": the pending count would pass the list
    StoreFull = 16, // "store full": the pending values would pass the store
    ShortArea = 17, // "short area": area or ticket buffer under what digest asks
    LongRow = 18, // a row that starts above zero or is too long
    BadWeight = 19, // an unflagged record of the tree with another kind, a wrong length, a factor not from 1 to 32, or a weight over the limit of M-106
    OddTree = 20, // a tree without exactly one sprue and one factor
    OverflowLength = 21, // an empty value, or one over 1,048,576 bytes
    ShortBuffer = 22, // a number list, value buffer or page area that is too short
    BadOverflow = 23, // a cell, or a cell with its pages, that no splitting writes
    HeavyTree = 24, // a tree whose total passes 2 to the 40th
}

impl From<Refusal> for u8 {
    ghost from_gives = { λ refusal n. n ≡ number refusal };

    fn from(refusal: Refusal) -> u8 {
        refusal as u8
    }
}

// The number that a call answers: 0 where it is accepted.
pub fn number_of(answer: Result<(), Refusal>) -> u8
    ensures { result ≡ number_of answer }
{
    match answer {
        Ok(()) => 0,
        Err(refusal) => u8::from(refusal),
    }
}
