//! The calls of a fake that fail.

ghost use Rattle.std.specs.Prelude.{◌≡◌, vec_len, IfOk};
ghost use Rattle.cq_io.specs.Failing.{first_call, is_to_fail, after_call};

/// The numbers, from 0, of the calls that fail, and the number of the call that comes next.
#[derive(Drop)]
pub struct Failing {
    numbers: Vec<u64>,
    next: u64,
}

impl Failing {
    /// These calls fail, and none came yet.
    pub(crate) fn new(numbers: Vec<u64>) -> Failing
        ensures { result ≡ first_call numbers }
    {
        Failing { numbers, next: 0 }
    }

    /// Whether this call fails. The call after it has the next number.
    pub(crate) fn fails(&mut self) -> bool
        ensures fails { result ≡ is_to_fail self.old }
        ensures after { self.new ≡ after_call self.old }
    {
        let number = self.next;
        self.next = self.next.saturating_add(1);
        self.numbers.contains(&number)
    }
}
