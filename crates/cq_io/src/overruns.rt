//! How many reads found too many bytes.

ghost use Rattle.std.specs.Prelude.{◌≡◌, ◌<◌, ◌≤◌, ◌+◌, ◌-◌, ◌^◌, length, min};

/// A count of the reads that took more bytes than they were allowed to. It stays at the last value of a u64.
#[derive(Drop)]
pub struct Overruns {
    count: u64,
}

impl Overruns {
    /// No read took too many yet.
    pub(crate) fn new() -> Overruns
        ensures { result.count ≡ 0 }
    {
        Overruns { count: 0 }
    }

    /// One more, which has taken these bytes: more than its limit.
    pub(crate) fn add(&mut self, _taken: &[u8], _limit: u64)
        requires { _limit < length _taken.now }
        ensures count { self.new.count ≡ min (self.old.count + 1) (2 ^ 64 - 1) }
        ensures later { self.old.count ≤ self.new.count }
    {
        self.count = self.count.saturating_add(1);
    }
}
