ghost use Rattle.std.specs.Prelude.{◌≡◌, true, false, not, eqb};
ghost use Rattle.replay.specs.Counts.{one_more, count_if};

// How many answers passed and failed, and whether the file may hold more: a flag, since the score is wanted at the file's end too.
#[derive(Clone, Copy)]
pub struct Score {
    pub passed: u64,
    pub failed: u64,
    pub more: bool,
}

fn one_more(x: u64) -> u64
    ensures { result ≡ one_more x }
{
    x.saturating_add(1)
}

impl Score {
    pub(crate) fn new() -> Self
        ensures passed_value { result.passed ≡ 0 }
        ensures failed_value { result.failed ≡ 0 }
        ensures more_value { result.more ≡ true }
    {
        Self {
            passed: 0,
            failed: 0,
            more: true,
        }
    }

    // An answer more.
    pub(crate) fn count(self, passed: bool) -> Self
        ensures passed_value { result.passed ≡ count_if passed self.passed }
        ensures failed_value { result.failed ≡ count_if (not passed) self.failed }
        ensures more_value { result.more ≡ self.more }
    {
        let mut t = self;
        if passed {
            t.passed = one_more(t.passed);
        } else {
            t.failed = one_more(t.failed);
        }
        t
    }

    // The file's end, of which `left` bytes make no record.
    pub(crate) fn end(self, left: usize) -> Self
        ensures passed_value { result.passed ≡ self.passed }
        ensures failed_value { result.failed ≡ count_if (not (eqb left 0)) self.failed }
        ensures more_value { result.more ≡ false }
    {
        let mut t = self;
        t.more = false;
        if left != 0 {
            t.failed = one_more(t.failed);
        }
        t
    }
}
