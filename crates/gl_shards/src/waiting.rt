//! How a thread waits that looks again and again for what another one does.
use std::sync::Wait;
use std::sync::atomic::AtomicU64;
use std::time::Duration;
use std::{hint, thread};

// After how many looks a waiting thread lets others run between two of them.
const SPINS: u32 = 8;

// After how many looks one sleeps that lets nobody run before.
const LONG_SPINS: u32 = 10;

// After how many it sleeps.
const YIELDS: u32 = 64;

// How long a sleep is, in microseconds. The system adds about 50 of its own.
const NAP: u64 = 20;

// How long one is that follows the spinning at once.
const SHORTEST_NAP: u64 = 1;

// How often a thread looks again before it asks to be woken.
pub(crate) const LOOKS: u32 = 1_000;

/// Waits before another look, after so many in vain: it spins at first, twice as long each time, then lets
/// others run, and later sleeps for 20 microseconds. Nobody has to wake it, so that who does what it waits for
/// makes no call of the system.
pub fn pause<R: Wait>(rt: &R, looks: u32) {
    if looks >= YIELDS {
        sleep(rt, NAP);
        return;
    }
    if looks >= SPINS {
        thread::yield_now();
        return;
    }
    spin(looks);
}

/// The same, but that it never lets others run: it spins four times as long, and then sleeps for as short as the system
/// can. It is for who can wait for so long without holding up others, as one whose lane holds many notes.
///
/// The spinning takes as long as a collector needs for some hundred notes. A sleep takes 50 microseconds at the least, in
/// which one that waits for these notes alone has none.
///
/// Where other programs keep all processors busy, a thread that lets others run waits for their turns, of
/// milliseconds each, and one that slept runs at once.
pub fn pause_without_yielding<R: Wait>(rt: &R, looks: u32) {
    if looks >= LONG_SPINS {
        sleep(rt, SHORTEST_NAP);
        return;
    }
    spin(looks);
}

// Sleeps for so many microseconds. It is a wait for a number that nobody changes.
fn sleep<R: Wait>(rt: &R, microseconds: u64) {
    AtomicU64::new(0).park_timeout(rt, 0, Duration::from_micros(microseconds));
}

// Spins, the longer the more looks there were.
fn spin(looks: u32) {
    for _ in 0..1u32.wrapping_shl(looks) {
        hint::spin_loop();
    }
}
