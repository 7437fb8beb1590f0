//! Lists of numbers of one length, in turn.
ghost use Rattle.std.specs.Prelude.{◌≡◌, ◌+◌, ◌<◌, IsTrue, IsFalse, IfOk, All, replicate};
ghost use Rattle.cq_proof.specs.Counting.{behind};

use std::alloc::{AllocError, Global};

/// As many zeros.
pub(crate) fn zeros(alloc: Global, count: usize) -> Result<Vec<u64>, AllocError>
    ensures { IfOk result (λ made. made.items ≡ replicate count 0) }
{
    let mut made = Vec::new(alloc);
    made.resize(count, 0)?;
    Ok(made)
}

/// Makes the next list of as many numbers of this one, where the first number changes fastest: whether there is one.
/// Where there is none, each is the greatest number, and then they are all 0.
pub(crate) fn next(digits: &mut [u64]) -> bool
    requires { All (λ d. d < 18446744073709551616) digits.old }
    ensures next { IsTrue result → behind digits.old ≡ behind digits.new + 1 }
    ensures last { IsFalse result → behind digits.old ≡ 0 }
    ensures numbers { All (λ d. d < 18446744073709551616) digits.new }
{
    for i in 0..digits.len() {
        if digits[i] < u64::MAX {
            digits[i] += 1;
            return true;
        }
        digits[i] = 0;
    }
    false
}
