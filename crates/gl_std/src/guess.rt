//! Guesses of the numbers of names.
use std::alloc::{AllocError, Global};

// So many places for a guess there are at first: a power of two, and so is what it grows to.
const PLACES: usize = 1024;
/// An odd number by which a product is spread over its upper bits.
const SPREAD: u64 = 0x9e37_79b9_7f4a_7c15;
/// The same for half as many bits.
const SECOND_SPREAD: u32 = 0x9e37_79b1;

/// What a name is guessed by: a hash of its first and last bytes and of its length.
///
/// It is cheap and has no seed, so names can be chosen to have one print. All that is lost then is
/// that a guess is wrong.
#[derive(Clone, Copy)]
pub(crate) struct Print {
    mark: u32,
}

impl Print {
    /// The print of a name. Looks at 16 bytes at most.
    pub(crate) fn new(name: &[u8]) -> Print {
        let ends = ends_of(name) ^ (name.len() as u64).rotate_left(48);
        // the upper half of the product, since a name's last bytes have no part in the lower one
        Print {
            mark: (ends.wrapping_mul(SPREAD) >> 32) as u32,
        }
    }

    // Where the guess stands that was put last, of those with this place.
    #[inline(always)]
    fn first_place(self, count: usize) -> usize {
        place_of(self.mark, count)
    }

    // Where a guess stands whose first place another one took. It depends on all of the print, so that
    // two of one first place mostly have two.
    #[inline(always)]
    fn second_place(self, count: usize) -> usize {
        place_of(self.mark.wrapping_mul(SECOND_SPREAD), count)
    }

    // Where a guess goes among more places, if this place among so many is one of its own.
    fn place_again(self, place: usize, count: usize, more: usize) -> Option<usize> {
        if self.first_place(count) == place {
            return Some(self.first_place(more));
        }
        (self.second_place(count) == place).then(|| self.second_place(more))
    }
}

// A place among so many, a power of two: as many of the uppermost bits as it takes.
#[inline(always)]
fn place_of(bits: u32, count: usize) -> usize {
    (u64::from(bits) << 32).wrapping_shr(count.wrapping_sub(1).leading_zeros()) as usize
}

// The first and the last bytes of a name, mixed.
#[inline(always)]
fn ends_of(name: &[u8]) -> u64 {
    let length = name.len();
    if length >= 8 {
        return eight(&name[..8]).rotate_left(29) ^ eight(&name[length - 8..]);
    }
    if length >= 4 {
        return (u64::from(four(&name[..4])) << 32) ^ u64::from(four(&name[length - 4..]));
    }
    if length == 0 {
        return 0;
    }
    (u64::from(name[0]) << 16) ^ (u64::from(name[length / 2]) << 8) ^ u64::from(name[length - 1])
}

// Eight bytes as a number.
#[inline(always)]
fn eight(bytes: &[u8]) -> u64 {
    match <[u8; 8]>::try_from(bytes) {
        Ok(bytes) => u64::from_le_bytes(bytes),
        Err(_) => 0,
    }
}

// Four bytes as a number.
#[inline(always)]
fn four(bytes: &[u8]) -> u32 {
    match <[u8; 4]>::try_from(bytes) {
        Ok(bytes) => u32::from_le_bytes(bytes),
        Err(_) => 0,
    }
}

// The number of a name, and its print.
#[derive(Clone, Copy)]
struct Guess {
    print: Print,
    number: u32,
}

// What stands where no guess was put.
const NONE: Guess = Guess {
    print: Print { mark: 0 },
    number: 0,
};

/// Numbers of names that were put lately, by their prints. Each has two places where it may stand, so that
/// two names of one place are both known.
///
/// A guess is nothing to rely on: whoever asks for one compares the name with that of this number.
#[derive(Drop)]
pub(crate) struct Guesses {
    // Empty until memory is taken.
    guesses: Vec<Guess>,
}

impl Guesses {
    /// No guesses, and no memory for any.
    pub(crate) fn new(alloc: Global) -> Guesses {
        Guesses {
            guesses: Vec::new(alloc),
        }
    }

    /// Takes memory for more guesses, where they are no more than twice as many as the names. Those that
    /// were put stay.
    pub(crate) fn make_room(&mut self, names: usize) -> Result<(), AllocError> {
        let count = self.guesses.len();
        if count / 2 > names {
            return Ok(());
        }
        let more = if count == 0 { PLACES } else { count };
        self.guesses.resize(count.saturating_add(more), NONE)?;
        self.put_again(count);
        Ok(())
    }

    // Puts the guesses of the first places, so many, where they stand among twice as many: the last one
    // first, since a guess goes to twice its place or to the one after, where none waits any more.
    fn put_again(&mut self, count: usize) {
        let more = self.guesses.len();
        for place in (0..count).rev() {
            let Some(guess) = self.guesses.get_mut(place) else {
                return;
            };
            let before = std::mem::replace(guess, NONE);
            let Some(again) = before.print.place_again(place, count, more) else {
                continue;
            };
            if let Some(guess) = self.guesses.get_mut(again) {
                *guess = before;
            }
        }
    }

    /// A number that a name with this print may have.
    #[inline(always)]
    pub(crate) fn get(&self, print: Print) -> Option<u32> {
        let count = self.guesses.len();
        let first = self.guesses.get(print.first_place(count))?;
        if first.print.mark == print.mark {
            return Some(first.number);
        }
        let second = self.guesses.get(print.second_place(count))?;
        if second.print.mark == print.mark {
            return Some(second.number);
        }
        None
    }

    /// Puts the number of a name with this print, if it has one and there is memory.
    pub(crate) fn put(&mut self, print: Print, number: Option<u32>) {
        let Some(number) = number else { return };
        let place = print.first_place(self.guesses.len());
        let Some(guess) = self.guesses.get_mut(place) else {
            return;
        };
        let before = *guess;
        *guess = Guess { print, number };
        self.put_second(before, place);
    }

    // Puts the guess that stood at this place until now at its second one, if that was its first one.
    fn put_second(&mut self, before: Guess, place: usize) {
        let count = self.guesses.len();
        let second = before.print.second_place(count);
        if before.print.first_place(count) != place || second == place {
            return;
        }
        if let Some(guess) = self.guesses.get_mut(second) {
            *guess = before;
        }
    }
}
