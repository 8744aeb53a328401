// Moving bytes within what is lent: up to make room, down to the start, and zeros behind.
// Ported from nomt/src/beatree/ops/update/leaf_updater.rs of thrumdev/nomt: what `prepare_merge_ops` does to the vector of operations.
#![tactic(auto)]

ghost use Rattle.std.specs.Prelude.{◌≡◌, ◌-◌, ◌≤◌, length, take, drop};
ghost use Rattle.leaf_move.specs.Moving.{under, settled, Spare};

use leaf_builder::clear_between;

// ---- up

// Moves bytes `from` up to `to` so that they end at `end`. The places may overlap.
pub fn move_up(d: &mut [u8], from: usize, to: usize, end: usize)
    requires { (from ≤ to) × (to ≤ end) × (end ≤ length d.old) }
    ensures { d.new ≡ under d.old end (take (to - from) (drop from d.old)) }
{
    d.copy_within(from..to, end - (to - from));
}

// ---- down to the start

// The last `count` bytes at the start, and zeros behind them. Before them only the first `filled` may be in use, so that only
// those are cleared, and where the last ones stood: a store is mostly unused.
pub fn settle_bytes(d: &mut [u8], count: usize, filled: usize)
    requires { Spare d.old count filled }
    ensures { d.new ≡ settled 0 d.old count }
{
    let end = d.len();
    let used = count.max(filled);
    let top = used.max(end - count);
    d.copy_within(end - count..end, 0);
    clear_between(d, count, used);
    clear_between(d, top, end);
}
