//! Fingerprints of several numbers. Nothing of them is proved, and nothing relies on them but for
//! speed: what has one fingerprint is compared.

// An odd number with its ones spread evenly.
const SPREAD: u64 = 0x9E37_79B9_7F4A_7C15;

/// A fingerprint of what has this one and then the number: hardly ever the same for others.
pub(crate) fn mixed(print: u64, number: u64) -> u64 {
    (print ^ number).wrapping_mul(SPREAD).rotate_left(29)
}
