//! What the hash of names begins with.
use gl_std::Seed;
use std::hash::{BuildHasher, Hasher};

// The hash of a number under a seed drawn at random, if one could be drawn.
fn hash_drawn(rt: &HostRuntime) -> Option<u64> {
    let Ok(seed) = Seed::random(rt) else {
        return None;
    };
    let mut hasher = seed.build_hasher();
    hasher.write_u32(7);
    Some(hasher.finish())
}

// Names can't be chosen to collide: of two seeds drawn at random the hashes differ, but for one pair in 2^64.
#[test]
fn seeds_differ(rt: HostRuntime) {
    let (one, other) = (hash_drawn(&rt), hash_drawn(&rt));
    assert!(rt; one.is_some() && other.is_some());
    assert!(rt; one != other);
}
