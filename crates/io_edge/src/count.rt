// Counts of calls and of failures.
ghost use Rattle.std.specs.Prelude.{◌≡◌, ◌≤◌, false};
ghost use Rattle.io_edge.specs.Outside.{next_count, Rose, late_after};

/// One more, or the last value.
pub fn one_more(count: u64) -> u64
    ensures { result ≡ next_count count }
{
    count.saturating_add(1)
}

/// The failures of one object: how many there were, and whether a call began after one.
#[derive(Clone, Copy)]
pub struct Faults {
    pub count: u64,
    pub late: bool,
}

impl Faults {
    /// Nothing has failed.
    pub fn none() -> Faults
        ensures { result ≡ record { count = 0; late = false } }
    {
        Faults {
            count: 0,
            late: false,
        }
    }

    /// A call begins.
    pub fn begin(&mut self)
        ensures late { self.new.late ≡ late_after self.old.count self.old.late }
        ensures count { self.new.count ≡ self.old.count }
    {
        if self.count != 0 {
            self.late = true;
        }
    }

    /// The call failed.
    pub fn add(&mut self)
        ensures count { self.new.count ≡ next_count self.old.count }
        ensures rose { Rose self.old.count self.new.count }
        ensures no_less { self.old.count ≤ self.new.count }
        ensures late { self.new.late ≡ self.old.late }
    {
        self.count = one_more(self.count);
    }
}
