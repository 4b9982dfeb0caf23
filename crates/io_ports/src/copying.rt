// Copies between slices.
ghost use Rattle.std.specs.Prelude.{◌≡◌, ◌≤◌, ◌<◌, List, ℕ, [], length, take, drop, min};

// Copies what fits from the front, and answers how many bytes that is.
pub fn copy_front(from: &[u8], into: &mut [u8]) -> usize
    ensures count { result ≡ min (length into.new) (length from.now) }
    ensures same { take result into.new ≡ take result from.now }
{
    let count = into.len().min(from.len());
    into[..count].copy_from_slice(&from[..count]);
    count
}

// Copies what fits from the place `at` on, and answers how many bytes that is.
pub fn copy_from(from: &[u8], at: usize, into: &mut [u8]) -> usize
    ensures count { result ≡ min (length into.new) (length (drop at from.now)) }
    ensures same { take result into.new ≡ take result (drop at from.now) }
{
    if from.len() <= at {
        return 0;
    }
    copy_front(&from[at..], into)
}
