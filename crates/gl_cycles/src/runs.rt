//! The runs in which a search on several threads deals out where to begin.
ghost use Rattle.std.specs.Prelude.{◌≡◌, ◌+◌, ◌-◌, ◌<◌, ◌≤◌, max, min};

/// Up to where roots are looked at next, of which some from one on were: there are as many as before and
/// at least so many, but not more than there are.
pub(crate) fn next_end(from: usize, done: usize, size: usize, least: usize) -> usize
    requires from { from ≤ done }
    requires left { done < size }
    requires least { 0 < least }
    ensures end { result ≡ min size (done + max least (done - from)) }
    ensures later { done < result }
    ensures within { result ≤ size }
{
    let before = done - from;
    let left = size - done;
    done + before.max(least).min(left)
}
