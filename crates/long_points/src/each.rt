// A test of each of some numbers.
ghost use Rattle.std.specs.Prelude.{◌≤◌, ◌↔◌, ℕ, Bool, IsTrue, IfOk};
ghost use Rattle.long_points.specs.Tests.{UpTo, AnswersUpTo};

use std::alloc::AllocError;

/// Whether each number from 1 to the count passes a test. After the first that doesn't none is tested.
pub fn each_holds<F: Fn(u32) -> Result<bool, AllocError>>(
    count: u32,
    test: F,
) -> Result<bool, AllocError>
    requires { (k : ℕ) → 1 ≤ k → k ≤ count → F.pre test k }
    ensures { IfOk result
        (λ holds. (passes : ℕ → Bool) → AnswersUpTo (F.post test) passes count →
        IsTrue holds ↔ UpTo passes count) }
{
    for i in 0..count {
        if !test(i + 1)? {
            return Ok(false);
        }
    }
    Ok(true)
}
