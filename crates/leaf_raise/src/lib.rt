// Records raised to the end of list and store as inserts, the last one first.
// Ported from nomt/src/beatree/ops/update/leaf_updater.rs of thrumdev/nomt: the records that `prepare_merge_ops` makes operations of.
#![tactic(auto)]

ghost use Rattle.std.specs.Prelude.{◌≡◌, ◌≤◌, ◌<◌};
ghost use Rattle.leaf_raise.specs.Raising.{lower_by};

// How far raising has come: the lowest entry, where the next value will end in the store that is made, and where it will end in
// the raised one.
#[derive(Clone, Copy)]
pub struct Top {
    pub entry: usize,
    pub to: usize,
    pub at: usize,
}

// Room for one record, whose value has `len` bytes.
pub fn lower(top: Top, len: usize) -> Top
    requires { (0 < top.entry) × (len ≤ top.to) × (len ≤ top.at) }
    ensures { result ≡ lower_by top 1 len }
{
    Top {
        entry: top.entry - 1,
        to: top.to - len,
        at: top.at - len,
    }
}
