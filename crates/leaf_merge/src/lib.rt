// The records that a digest keeps for a merge.
// Ported from nomt/src/beatree/ops/update/leaf_updater.rs of thrumdev/nomt: `prepare_merge_ops`.
// `digest_keep` turns them into inserts in place; here is how many records of an entry are not kept, and `specs/` has what keeping them requires and leaves.
#![tactic(auto)]

ghost use Rattle.std.specs.Prelude.{◌≡◌};
ghost use Rattle.leaf_merge.specs.Lifting.{skip_at};

use leaf_cut::Cursor;

// How many records of entry e are not kept: only the cursor's own entry has some that are not.
pub fn skip_at(at: Cursor, e: usize) -> usize
    ensures { result ≡ skip_at at e }
{
    if e == at.entry {
        return at.skip;
    }
    0
}
