//! Variables in a binary heap by activity (Williams 1964), as MiniSat decides them (Eén and Sörensson 2003). Nothing is
//! promised of it: what it tells is looked at again, and where it tells nothing the ring of all variables is walked.

use std::alloc::{AllocError, Global};

/// No heap is deeper.
const MOST_DEPTH: u32 = 32;

/// The variables of a heap, and where each stands. Some eight bytes a variable.
#[derive(Drop)]
pub struct Heap {
    /// The variables from place 1 on: none is more active than the one at half its place.
    vars: Vec<u32>,
    /// The place of each variable, 0 where it is in none.
    places: Vec<u32>,
    /// How many variables there are.
    count: u32,
}

/// The activity of a variable.
fn activity_of(activity: &[u64], v: u32) -> u64 {
    activity.get(v as usize).copied().unwrap_or(0)
}

impl Heap {
    /// The variables from 1 to `vars`, the last one first.
    pub fn with(alloc: Global, vars: u32) -> Result<Heap, AllocError> {
        let places = vars as usize + 1;
        let mut heap = Heap {
            vars: vec![in alloc; 0; places]?,
            places: vec![in alloc; 0; places]?,
            count: vars,
        };
        for k in 0..vars {
            heap.set(k + 1, vars - k);
        }
        Ok(heap)
    }

    /// The variable at a place, 0 where there is none.
    fn var_at(&self, place: u32) -> u32 {
        self.vars.get(place as usize).copied().unwrap_or(0)
    }

    /// The place of a variable, 0 where it is in none.
    fn place_of(&self, v: u32) -> u32 {
        self.places.get(v as usize).copied().unwrap_or(0)
    }

    /// Puts a variable to a place.
    fn set(&mut self, place: u32, v: u32) {
        if let Some(it) = self.vars.get_mut(place as usize) {
            *it = v;
        }
        if let Some(it) = self.places.get_mut(v as usize) {
            *it = place;
        }
    }

    /// Moves a variable from a place towards the front, past those that are less active.
    fn rise(&mut self, activity: &[u64], v: u32, from: u32) {
        let mine = activity_of(activity, v);
        let mut at = from;
        for _ in 0..MOST_DEPTH {
            let above = self.var_at(at / 2);
            if at <= 1 || activity_of(activity, above) >= mine {
                break;
            }
            self.set(at, above);
            at /= 2;
        }
        self.set(at, v);
    }

    /// The place below one whose variable is more active.
    fn livelier_below(&self, activity: &[u64], at: u32) -> u32 {
        let left = at.saturating_mul(2);
        if left < self.count
            && activity_of(activity, self.var_at(left))
                < activity_of(activity, self.var_at(left + 1))
        {
            return left + 1;
        }
        left
    }

    /// Moves a variable from the front backwards, past those that are more active.
    fn sink(&mut self, activity: &[u64], v: u32) {
        let mine = activity_of(activity, v);
        let mut at = 1u32;
        for _ in 0..MOST_DEPTH {
            let below = self.livelier_below(activity, at);
            if below > self.count || activity_of(activity, self.var_at(below)) <= mine {
                break;
            }
            self.set(at, self.var_at(below));
            at = below;
        }
        self.set(at, v);
    }

    /// Puts a variable into the heap, unless it is there.
    pub fn put(&mut self, activity: &[u64], v: u32) {
        if self.place_of(v) == 0 && v > 0 && (v as usize) < self.places.len() {
            self.count = self.count.saturating_add(1);
            self.rise(activity, v, self.count);
        }
    }

    /// A variable that is in the heap has become more active.
    pub fn bump(&mut self, activity: &[u64], v: u32) {
        let place = self.place_of(v);
        if place > 0 {
            self.rise(activity, v, place);
        }
    }

    /// Takes the most active variable out, if there is one.
    pub fn pop(&mut self, activity: &[u64]) -> Option<u32> {
        if self.count == 0 {
            return None;
        }
        let first = self.var_at(1);
        let last = self.var_at(self.count);
        self.count -= 1;
        if self.count > 0 {
            self.sink(activity, last);
        }
        if let Some(place) = self.places.get_mut(first as usize) {
            *place = 0;
        }
        Some(first)
    }
}
