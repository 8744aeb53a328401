// The page calls with replies as structs of numbers, since an enum can't cross to C: document 01's number, and the values of each case. A
// refusal has its number and zeros in every other field.
#![tactic(auto)]

ghost use Rattle.std.specs.Prelude.{◌≡◌};
ghost use Rattle.refusal.specs.Numbers.{number, numbered};
ghost use Rattle.leaf_read.specs.Reply.{key_reply, value_reply, get_reply, size_reply};
ghost use Rattle.leaf_page.specs.Reply.{key_out, refused_value, found_value, value_out, get_out, size_out};

use leaf_node::Cell;
use refusal::Refusal;

#[repr(C)]
#[derive(Clone, Copy)]
pub struct LeafKey {
    pub refusal: u8,
    pub key: [u8; 32],
}

#[repr(C)]
#[derive(Clone, Copy)]
pub struct LeafValue {
    pub refusal: u8,
    // 1 where `get` finds no such key, else 0
    pub absent: u8,
    pub flag: u8,
    pub offset: usize,
    pub len: usize,
    // where an absent key would stand: the record before it is position - 1, the one behind it position; else 0
    pub position: usize,
}

#[repr(C)]
#[derive(Clone, Copy)]
pub struct LeafSize {
    pub refusal: u8,
    pub bytes: usize,
}

impl From<Result<[u8; 32], Refusal>> for LeafKey {
    ghost from_gives = { λ reply out. out ≡ key_out (numbered reply) };

    fn from(reply: Result<[u8; 32], Refusal>) -> LeafKey {
        match reply {
            Ok(key) => LeafKey { refusal: 0, key },
            Err(refusal) => LeafKey {
                refusal: u8::from(refusal), // the key of a refusal is zeros
                key: [0; 32],
            },
        }
    }
}

// Key i of a page.
pub fn key(page: &[u8], i: usize) -> LeafKey
    ensures { result ≡ key_out (key_reply 4096 page.now i) }
{
    LeafKey::from(leaf_read::key(page, i))
}

fn refused_value(refusal: u8) -> LeafValue
    ensures { result ≡ refused_value refusal }
{
    LeafValue {
        refusal,
        absent: 0,
        flag: 0,
        offset: 0,
        len: 0,
        position: 0,
    }
}

impl From<Refusal> for LeafValue {
    ghost from_gives = { λ refusal out. out ≡ refused_value (number refusal) };

    fn from(refusal: Refusal) -> LeafValue {
        refused_value(u8::from(refusal))
    }
}

impl From<Cell> for LeafValue {
    ghost from_gives = { λ cell out. out ≡ found_value cell };

    fn from(cell: Cell) -> LeafValue {
        LeafValue {
            refusal: 0,
            absent: 0,
            flag: u8::from(cell.flag),
            offset: cell.offset,
            len: cell.len,
            position: 0, // a found key's index isn't asked for
        }
    }
}

impl From<Result<Cell, Refusal>> for LeafValue {
    ghost from_gives = { λ reply out. out ≡ value_out (numbered reply) };

    fn from(reply: Result<Cell, Refusal>) -> LeafValue {
        match reply {
            Ok(cell) => LeafValue::from(cell),
            Err(refusal) => LeafValue::from(refusal),
        }
    }
}

// Value i of a page: offset, length and flag.
pub fn value(page: &[u8], i: usize) -> LeafValue
    ensures { result ≡ value_out (value_reply 4096 page.now i) }
{
    LeafValue::from(leaf_read::value(page, i))
}

impl From<Result<Result<Cell, usize>, Refusal>> for LeafValue {
    ghost from_gives = { λ reply out. out ≡ get_out (numbered reply) };

    fn from(reply: Result<Result<Cell, usize>, Refusal>) -> LeafValue {
        match reply {
            Ok(Ok(cell)) => LeafValue::from(cell),
            Ok(Err(position)) => LeafValue {
                absent: 1,
                position,
                ..refused_value(0)
            },
            Err(refusal) => LeafValue::from(refusal), // of a bad page
        }
    }
}

// The value of a key in a page, or absent, with the position at which it would stand.
pub fn get(page: &[u8], key: &[u8; 32]) -> LeafValue
    ensures { result ≡ get_out (get_reply 4096 page.now key.now) }
{
    LeafValue::from(leaf_read::get(page, key))
}

impl From<Result<usize, Refusal>> for LeafSize {
    ghost from_gives = { λ reply out. out ≡ size_out (numbered reply) };

    fn from(reply: Result<usize, Refusal>) -> LeafSize {
        match reply {
            Ok(bytes) => LeafSize { refusal: 0, bytes },
            Err(refusal) => LeafSize {
                refusal: u8::from(refusal),
                bytes: 0,
            },
        }
    }
}

// The value bytes of records `from` up to, not including, `to`.
pub fn values_size(page: &[u8], from: usize, to: usize) -> LeafSize
    ensures { result ≡ size_out (size_reply 4096 page.now from to) }
{
    LeafSize::from(leaf_read::values_size(page, from, to))
}
