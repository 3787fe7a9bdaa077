//! The first place of a byte that is near.
ghost use Rattle.std.specs.Prelude.{◌≡◌, ◌+◌, ◌≤◌, ◌==◌, not, length, take, drop};
ghost use Rattle.std.specs.List.{prefix_len};
ghost use Rattle.bstr.specs.Find.{IsFirst, Passes, is_byte};

use bstr::ByteSlice;
use std::simd::prelude::*;

// So many bytes are looked at in one step.
const LANES: usize = 16;
// A byte that is further away is left to a search that is made for long texts.
const NEAR: usize = 64;

/// The first place of the byte from here on. It looks at 16 bytes in a step, up to 64, and then goes on
/// as a search in long texts does; fewer than 16 bytes are looked at one by one.
#[inline(always)]
pub fn find_from(byte: u8, text: &[u8], from: usize) -> Option<usize>
    requires { from ≤ length text.now }
    ensures { IsFirst (Passes (is_byte byte) text.now) from (length text.now) result }
{
    let length = text.len();
    let mut at = from;
    while at - from < NEAR && length - at >= LANES {
        let run = run_before(byte, text, at);
        if run < LANES {
            return Some(at + run);
        }
        at += LANES;
    }
    if length - at >= LANES {
        return find_far(byte, text, at);
    }
    if length - from < LANES {
        return find_one_by_one(byte, text, from);
    }
    // the last sixteen bytes, of which some were looked at already
    let last = length - LANES;
    let run = run_before(byte, text, last);
    if run < LANES { Some(last + run) } else { None }
}

// `find_from`, by the library's search.
fn find_far(byte: u8, text: &[u8], from: usize) -> Option<usize>
    requires { from ≤ length text.now }
    ensures { IsFirst (Passes (is_byte byte) text.now) from (length text.now) result }
{
    match (&text[from..]).find_byte(byte) {
        Some(place) => Some(from + place),
        None => None,
    }
}

// `find_from`, byte by byte: of fewer than sixteen, one of the first few is mostly the one.
#[inline(always)]
fn find_one_by_one(byte: u8, text: &[u8], from: usize) -> Option<usize>
    requires { from ≤ length text.now }
    ensures { IsFirst (Passes (is_byte byte) text.now) from (length text.now) result }
{
    let mut at = from;
    while at < text.len() {
        if text[at] == byte {
            return Some(at);
        }
        at += 1;
    }
    None
}

// How many of the 16 bytes from here on come before the first one that is this byte: all, where none is.
#[inline(always)]
fn run_before(byte: u8, text: &[u8], at: usize) -> usize
    requires { at + LANES ≤ length text.now }
    ensures { result ≡ prefix_len (λ b. not (b == byte)) (take LANES (drop at text.now)) }
{
    let marked = u8x16::from_slice(&text[at..])
        .simd_eq(u8x16::splat(byte))
        .to_bitmask();
    if marked == 0 {
        return LANES;
    }
    marked.trailing_zeros() as usize
}
