//! What the hash of names begins with.
use std::hash::{BuildHasher, DefaultHasher, RandomState};
use std::io;
use std::random::RandomSource;

/// What the hash of names begins with. Which number a name gets doesn't depend on it.
///
/// With a seed that was drawn at random, names can't be chosen so that they collide, which would make
/// each look-up go through many of them.
#[derive(Clone, Copy)]
pub struct Seed {
    hasher: DefaultHasher,
}

impl Seed {
    /// A seed drawn at random. Err where the system gives no random bytes.
    pub fn random(rt: &impl RandomSource) -> io::Result<Seed> {
        let state = RandomState::new(rt)?;
        Ok(Seed {
            hasher: state.build_hasher(),
        })
    }

    /// The seed that is always the same, for names that nobody chose to collide.
    pub fn fixed() -> Seed {
        Seed {
            hasher: DefaultHasher::new(),
        }
    }
}

impl BuildHasher for Seed {
    type Hasher = DefaultHasher;

    ghost build_hasher = { λ seed. seed.hasher };

    fn build_hasher(&self) -> DefaultHasher {
        self.hasher
    }
}
