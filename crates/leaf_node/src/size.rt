// The size of a page, and the limits that follow from it.
ghost use Rattle.std.specs.Prelude.{◌≡◌, ◌+◌, ◌*◌, ◌≤◌, ◌<◌};
ghost use Rattle.leaf_node.specs.Limits.{PageSize, body_limit, record_limit, value_limit, merge_below, bulk_above, bulk_target};

// A page size for which all of this is shown.
#[derive(Clone, Copy)]
pub struct Size {
    pub bytes: usize,
    pub ghost right: { PageSize bytes },
}

impl Size {
    // What a body may be at most: all but the two bytes of the count.
    pub fn body_limit(self) -> usize
        ensures { (result ≡ body_limit self.bytes) × (result < 32768) }
    {
        self.bytes - 2
    }

    // How many records a page may have.
    pub fn record_limit(self) -> usize
        ensures { (result ≡ record_limit self.bytes) × (34 * result + 2 ≤ self.bytes) × (result < 32768) }
    {
        self.body_limit() / 34
    }

    // What a value may be at most.
    pub fn value_limit(self) -> usize
        ensures { (result ≡ value_limit self.bytes) × (result < 32768) }
    {
        self.body_limit() / 3 - 32
    }

    // Records that are left with a smaller body wait for a merge, where there is a cutoff.
    pub fn merge_below(self) -> usize
        ensures { (result ≡ merge_below self.bytes) × (0 < result) × (result < 32768) }
    {
        self.body_limit() / 2
    }

    // Pending records with a larger body are cut in bulk.
    pub fn bulk_above(self) -> usize
        ensures { (result ≡ bulk_above self.bytes) × (result < 65536) }
    {
        self.body_limit() * 9 / 5
    }

    // The body that a leaf cut in bulk aims at.
    pub fn bulk_target(self) -> usize
        ensures { (result ≡ bulk_target self.bytes) × (0 < result) × (result < 32768) }
    {
        self.body_limit() * 3 / 4
    }
}
