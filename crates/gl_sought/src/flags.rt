//! Flags of edges that are kept.
ghost use Rattle.std.specs.Prelude.{◌≡◌, count_by};

/// How many flags are set.
pub fn count_set(flags: &[bool]) -> usize
    ensures { result ≡ count_by (λ flag. flag) flags.now }
{
    flags.iter().filter(|&&flag| flag).count()
}
