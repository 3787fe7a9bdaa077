//! Whether two short texts are the same.
ghost use Rattle.std.specs.Prelude.{◌≡◌, ◌+◌, ◌≤◌, length, take, drop};
ghost use Rattle.std.specs.Str.{bytes_eq};

use std::simd::prelude::*;

// So many bytes are looked at in one step, in texts that have as many.
const LANES: usize = 16;

/// Whether the two texts are the same. It looks at four, eight or sixteen bytes in a step.
#[inline(always)]
pub fn is_same(one: &[u8], other: &[u8]) -> bool
    ensures { result ≡ bytes_eq one.now other.now }
{
    let length = one.len();
    if length != other.len() {
        return false;
    }
    if length < 4 {
        return one == other;
    }
    if length < 8 {
        return has_same::<4>(one, other, 0) && has_same::<4>(one, other, length - 4);
    }
    if length < LANES {
        return has_same::<8>(one, other, 0) && has_same::<8>(one, other, length - 8);
    }
    let mut at = 0;
    while length - at >= LANES {
        if !has_same::<LANES>(one, other, at) {
            return false;
        }
        at += LANES;
    }
    has_same::<LANES>(one, other, length - LANES)
}

// Whether the two texts have the same bytes from here on, so many of them.
#[inline(always)]
fn has_same<const COUNT: usize>(one: &[u8], other: &[u8], at: usize) -> bool
    requires one { at + COUNT ≤ length one.now }
    requires other { at + COUNT ≤ length other.now }
    requires few { COUNT ≤ 64 }
    ensures { result ≡ bytes_eq (take COUNT (drop at one.now)) (take COUNT (drop at other.now)) }
{
    let apart = Simd::<u8, COUNT>::from_slice(&one[at..])
        .simd_ne(Simd::<u8, COUNT>::from_slice(&other[at..]))
        .to_bitmask();
    apart == 0
}
