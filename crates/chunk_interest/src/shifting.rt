//! A count in which one thing is counted anew.
ghost use Rattle.std.specs.Prelude.{◌≡◌, ◌+◌, ◌≤◌};
ghost use Rattle.chunk_interest.specs.Freed.{bit};

/// The number with one more where it is to be counted, and one less where it was.
pub fn exchanged(n: u32, was: bool, is: bool) -> u32
    requires counted { bit was ≤ n }
    requires room { n ≤ 33554432 }
    ensures { result + bit was ≡ n + bit is }
{
    if was && !is {
        n - 1
    } else if is && !was {
        n + 1
    } else {
        n
    }
}
