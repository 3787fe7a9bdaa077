//! The strongly connected components of a graph: the places that lead to each other, there and
//! back.
//!
//! Kosaraju's algorithm. A first walk, depth first along the steps, tells the order in which places
//! are left for good. A second one goes against the steps, from the place that was left last on:
//! what it comes to from one root is a component, and no step leads from a component to an earlier
//! one. Each walk reads the steps from a place one after another, since they are laid side by side first.
//!
//! Nothing of this is proved, and nothing relies on it but for speed. So a number that is out of range,
//! which none is, is passed over. Places and steps are numbered by `u32`: of 2^32 or more of them, those beyond
//! are passed over too.

ghost use Rattle.std.specs.Prelude.{◌≡◌, vec_len, IfOk};

use gl_event::Memory;
use std::alloc::Global;

// The number of no place.
const NOWHERE: u32 = u32::MAX;

/// A step of a graph, from one place to another. Places are numbered from 0.
#[derive(Clone, Copy, Debug, PartialEq, Eq)]
pub struct Step {
    pub from: usize,
    pub to: usize,
}

impl Step {
    /// The same step the other way.
    pub fn back(self) -> Step {
        Step {
            from: self.to,
            to: self.from,
        }
    }
}

/// For each place a number: the same in one component, and never less behind a step than before it.
/// Takes time and memory for each place and each step once. Err where memory was refused.
pub fn components_of(
    alloc: Global,
    places: usize,
    steps: &[Step],
) -> Result<Vec<Option<usize>>, Memory>
    ensures { IfOk result (λ numbers. vec_len numbers ≡ places) }
{
    let left = left_in_order(alloc, places, steps)?;
    let back = Ways::new(alloc, places, steps, true)?;
    let mut walk = Walk::new(alloc, places)?;
    let mut numbers = vec![in alloc; None; places]?;
    for (number, &root) in left.iter().rev().enumerate() {
        walk.run(&back, root)?;
        // what was left since the last root is one component
        put_all(&mut numbers, &walk.left, number);
        walk.left.clear();
    }
    Ok(numbers)
}

// The places in the order in which a walk leaves them.
fn left_in_order(alloc: Global, places: usize, steps: &[Step]) -> Result<Vec<u32>, Memory> {
    let ways = Ways::new(alloc, places, steps, false)?;
    let mut walk = Walk::new(alloc, places)?;
    for root in 0..u32::try_from(places).unwrap_or(NOWHERE) {
        walk.run(&ways, root)?;
    }
    Ok(walk.left)
}

// Gives some places a number.
fn put_all(numbers: &mut Vec<Option<usize>>, places: &[u32], number: usize)
    ensures { vec_len numbers.new ≡ vec_len numbers.old }
{
    for &place in places {
        if let Some(item) = numbers.get_mut(place as usize) {
            *item = Some(number);
        }
    }
}

// Steps, with those from each place side by side.
#[derive(Drop)]
struct Ways {
    // for each place where the steps from it begin, and behind the last place where they end
    begins: Vec<u32>,
    // for each step the place that it leads to
    leads_to: Vec<u32>,
}

impl Ways {
    // These steps, or the same the other way: as many as a `u32` counts. A step to a place whose number is no `u32` leads
    // nowhere.
    fn new(alloc: Global, places: usize, steps: &[Step], is_back: bool) -> Result<Ways, Memory> {
        let steps = steps.get(..u32::MAX as usize).unwrap_or(steps);
        let mut begins = vec![in alloc; 0; places.saturating_add(1)]?;
        count(&mut begins, steps, is_back);
        let len = add_up(&mut begins);
        let mut leads_to = vec![in alloc; NOWHERE; len as usize]?;
        for &step in steps {
            let step = if is_back { step.back() } else { step };
            // each step goes before those of its place that are there
            if let Some(begin) = begins.get_mut(step.from) {
                *begin = begin.saturating_sub(1);
                if let Some(item) = leads_to.get_mut(*begin as usize) {
                    *item = u32::try_from(step.to).unwrap_or(NOWHERE);
                }
            }
        }
        Ok(Ways { begins, leads_to })
    }

    // Where the steps from a place begin; 0 where there is no such place.
    fn begin(&self, place: u32) -> u32 {
        self.begins.get(place as usize).copied().unwrap_or(0)
    }

    // A stay at a place before any step from there was looked at.
    fn stay(&self, place: u32) -> Stay {
        Stay {
            place,
            ahead: self.begin(place),
            end: self.begin(place.saturating_add(1)),
        }
    }
}

// Counts the steps from each place.
fn count(counts: &mut [u32], steps: &[Step], is_back: bool) {
    for step in steps {
        let from = if is_back { step.to } else { step.from };
        if let Some(count) = counts.get_mut(from) {
            *count = count.saturating_add(1);
        }
    }
}

// Adds to each count those before it, and gives the last sum.
fn add_up(counts: &mut [u32]) -> u32 {
    let mut sum = 0u32;
    for count in counts.iter_mut() {
        sum = sum.saturating_add(*count);
        *count = sum;
    }
    sum
}

// Where a walk is, and which steps from there are still to look at.
#[derive(Clone, Copy)]
struct Stay {
    place: u32,
    // the number of the next step, and of the one behind the last
    ahead: u32,
    end: u32,
}

// A walk through a graph along its steps, depth first.
#[derive(Drop)]
struct Walk {
    // for each place whether the walk is yet to come to it
    is_new: Vec<bool>,
    // the places from the root to where the walk is
    trail: Vec<Stay>,
    // the places that were left for good, in order
    left: Vec<u32>,
}

impl Walk {
    // A walk that comes to nowhere yet.
    fn new(alloc: Global, places: usize) -> Result<Walk, Memory> {
        Ok(Walk {
            is_new: vec![in alloc; true; places]?,
            trail: Vec::new(alloc),
            left: Vec::new(alloc),
        })
    }

    // Goes from a root to all places that it leads to and that weren't come to before.
    fn run(&mut self, ways: &Ways, root: u32) -> Result<(), Memory> {
        if self.comes_to(root) {
            self.trail.push(ways.stay(root))?;
        }
        // each turn comes to a place or leaves one
        for _ in 0..self.is_new.len().saturating_mul(2) {
            let Some(stay) = self.trail.pop() else {
                break;
            };
            self.turn(ways, stay)?;
        }
        Ok(())
    }

    // Goes on from a place to the next one that is new, or leaves it for good where there is none.
    fn turn(&mut self, ways: &Ways, stay: Stay) -> Result<(), Memory> {
        for i in stay.ahead..stay.end {
            let to = ways.leads_to.get(i as usize).copied().unwrap_or(NOWHERE);
            if self.comes_to(to) {
                self.trail.push(Stay {
                    ahead: i + 1,
                    ..stay
                })?;
                self.trail.push(ways.stay(to))?;
                return Ok(());
            }
        }
        self.left.push(stay.place)?;
        Ok(())
    }

    // Whether a place is new, which it then no longer is. What is no place isn't.
    fn comes_to(&mut self, place: u32) -> bool {
        match self.is_new.get_mut(place as usize) {
            Some(is_new) if *is_new => {
                *is_new = false;
                true
            }
            _ => false,
        }
    }
}
