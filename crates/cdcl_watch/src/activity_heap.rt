// Variables in a heap by their activity.

use std::alloc::{AllocError, Global};
use watched_propagation::{low, read, write};

/// The place of a variable that is not in the heap.
const NO_PLACE: u32 = u32::MAX;

/// How much less a conflict counts than the one after it.
const DECAY: f64 = 0.95;

/// Above this all activities are made smaller.
const GREATEST: f64 = 1e100;

/// Activities of variables, as Chaff's successors have them, and a binary heap that gives the most active variable of those that
/// are in it. A variable keeps its activity while it is out of the heap.
#[derive(Drop)]
pub struct ActivityHeap {
    activities: Vec<f64>,
    /// What a variable's activity grows by when a conflict meets it.
    growth: f64,
    heap: Vec<u32>,
    places: Vec<u32>,
}

impl ActivityHeap {
    /// Room for no variable.
    pub fn new(alloc: Global) -> ActivityHeap {
        ActivityHeap {
            activities: Vec::new(alloc),
            growth: 1.0,
            heap: Vec::new(alloc),
            places: Vec::new(alloc),
        }
    }

    /// Makes room for the variables up to this number, none of them in the heap: activities stay.
    pub fn renew(&mut self, variables: u32) -> Result<(), AllocError> {
        let wanted = variables as usize + 1;
        self.heap.clear();
        self.places.clear();
        for _ in self.activities.len()..wanted {
            self.activities.push(0.0)?;
        }
        for _ in 0..wanted {
            self.places.push(NO_PLACE)?;
        }
        Ok(())
    }

    /// How many variables are in the heap.
    pub fn len(&self) -> usize {
        self.heap.len()
    }

    /// Takes all variables out, in time of those that are in.
    pub fn clear(&mut self) {
        for variable in self.heap.iter() {
            write(self.places.as_mut_slice(), *variable as usize, NO_PLACE);
        }
        self.heap.clear();
    }

    #[inline(always)]
    fn activity(&self, variable: u32) -> f64 {
        read(self.activities.as_slice(), variable as usize, 0.0)
    }

    #[inline(always)]
    fn at(&self, place: usize) -> u32 {
        read(self.heap.as_slice(), place, 0)
    }

    #[inline(always)]
    fn put(&mut self, place: usize, variable: u32) {
        write(self.heap.as_mut_slice(), place, variable);
        write(self.places.as_mut_slice(), variable as usize, low(place));
    }

    /// Lets the variable at a place rise to where it belongs.
    fn rise(&mut self, start: usize) {
        let mut place = start;
        let variable = self.at(place);
        let activity = self.activity(variable);
        for _ in 0..64 {
            if place == 0 {
                break;
            }
            let parent = (place - 1) / 2;
            let other = self.at(parent);
            if self.activity(other) >= activity {
                break;
            }
            self.put(place, other);
            place = parent;
        }
        self.put(place, variable);
    }

    /// The more active of the two below a place, and its place.
    #[inline(always)]
    fn child(&self, place: usize) -> Option<(usize, u32)> {
        let left = place.wrapping_mul(2).wrapping_add(1);
        let right = left.wrapping_add(1);
        if left >= self.heap.len() {
            return None;
        }
        let one = self.at(left);
        if right >= self.heap.len() {
            return Some((left, one));
        }
        let other = self.at(right);
        if self.activity(other) > self.activity(one) {
            Some((right, other))
        } else {
            Some((left, one))
        }
    }

    /// Lets the first variable of the heap sink to where it belongs.
    fn sink(&mut self) {
        let mut place = 0usize;
        let variable = self.at(0);
        let activity = self.activity(variable);
        for _ in 0..64 {
            let Some((below, other)) = self.child(place) else {
                break;
            };
            if self.activity(other) <= activity {
                break;
            }
            self.put(place, other);
            place = below;
        }
        self.put(place, variable);
    }

    /// Puts a variable into the heap, where it is not in it.
    pub fn insert(&mut self, variable: u32) -> Result<(), AllocError> {
        if read(self.places.as_slice(), variable as usize, 0) == NO_PLACE {
            let last = self.heap.len();
            self.heap.push(variable)?;
            self.rise(last);
        }
        Ok(())
    }

    /// Takes the most active variable of the heap.
    pub fn pop(&mut self) -> Option<u32> {
        let last = self.heap.pop()?;
        if self.heap.is_empty() {
            write(self.places.as_mut_slice(), last as usize, NO_PLACE);
            return Some(last);
        }
        let first = self.at(0);
        write(self.places.as_mut_slice(), first as usize, NO_PLACE);
        write(self.heap.as_mut_slice(), 0, last);
        self.sink();
        Some(first)
    }

    /// Counts a variable that a conflict met.
    pub fn raise(&mut self, variable: u32) {
        let growth = self.growth;
        self.grow(variable, growth);
    }

    /// Counts a variable as this many conflicts do that meet it.
    pub fn raise_by(&mut self, variable: u32, weight: f64) {
        let growth = self.growth * weight;
        self.grow(variable, growth);
    }

    fn grow(&mut self, variable: u32, growth: f64) {
        let grown = self.activity(variable) + growth;
        write(self.activities.as_mut_slice(), variable as usize, grown);
        if grown > GREATEST {
            self.shrink();
        }
        let place = read(self.places.as_slice(), variable as usize, NO_PLACE);
        if place != NO_PLACE {
            self.rise(place as usize);
        }
    }

    fn shrink(&mut self) {
        for activity in self.activities.iter_mut() {
            *activity /= GREATEST;
        }
        self.growth /= GREATEST;
    }

    /// Counts a conflict: what it met weighs more than what was met before.
    pub fn end_conflict(&mut self) {
        self.growth /= DECAY;
    }
}
