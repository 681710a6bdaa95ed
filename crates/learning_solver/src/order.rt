//! In which order variables are decided, and with which phase. A variable that took part in a conflict is likely to
//! take part in the next one, so the variables of a conflict move to the front of a ring, as in VMTF (Ryan 2004; Biere
//! and Froehlich 2015). Beside it each variable has an activity, which newer conflicts bump by more, as in VSIDS
//! (Moskewicz and others 2001) in the form of MiniSat (Een and Soerensson 2003), but in whole numbers: they decide
//! in which order the variables of a conflict move, and which of the first free ones is decided. That was faster than
//! either alone, and than a heap, but for large CNFs: there a heap of activities decides, and the ring stays as it is
//! and finds a free variable where the heap has none.

ghost use Rattle.std.specs.Prelude.{◌≡◌, ◌+◌, ◌^◌, ◌≤◌, ◌<◌, ◌⊎◌, ◌↔◌, ℕ, length};
ghost use Rattle.std.specs.Prelude.{All, IsTrue, IfOk, IfSome, IsNone, Option, Some, None};
ghost use Rattle.std.specs.Option.{ForSome};
ghost use Rattle.index_ring.specs.Lists.{IsRings, Stands, list_of, first_in, no_lists};
ghost use Rattle.literal_trail.specs.Trail.{entry_of};
ghost use Rattle.learning_solver.specs.Order.{IsRing, IsFreeIn, AllGiven};

use crate::heap::Heap;
use crate::listed::Listed;
use crate::phases::{Aim, Phases};
use crate::profile::Profile;
use crate::tunables::{
    FIRST_GAIN, GAIN_PARTS, LEAST_HEAP, LOOKED_AT, MOST_GAIN, MOST_PLACES, SCALE,
};
use clause_rings::ClauseDb;
use index_ring::Rings;
use order_ints::Lit;
use std::alloc::{AllocError, Global};
use std::marker::Model;

/// The order of the variables 1 to `vars`, their activities and phases. Some 21 bytes a variable, 29 with a heap.
#[derive(Drop)]
pub struct Order {
    vars: u32,
    ring: Rings,
    activity: Vec<u64>,
    /// The variables by activity, where there are many.
    heap: Option<Heap>,
    phases: Phases,
    gain: u64,
    /// No variable before this one is free, as far as is known; 0 for the front.
    start: u32,
    /// What is decided before all others.
    listed: Listed,
    /// How it searches.
    profile: Profile,
}

impl Model for Order {
    ghost use Rattle.std.specs.Prelude.{ℕ};
    ghost use Rattle.learning_solver.specs.Order.{IsOrder};

    ghost Value = { ℕ };

    ghost view = { λ o. o.vars };

    ghost invariant = { λ o. IsOrder o.vars o.ring o.activity.items o.start };
}

/// Puts the variables into the ring, the last one in front: where a CNF was compiled, it has the most fresh variables
/// that stand for large parts of the whole behind.
fn push_all(ring: &mut Rings, vars: u32)
    requires few { vars ≤ 2 ^ 27 }
    requires empty { ring.old ≡ no_lists 1 (vars + 1) }
    requires rings { IsRings ring.old }
    ensures { IsRing vars ring.new }
{
    for v in 1..vars + 1 {
        ring.push_front(0, v);
    }
}

/// Whether a variable has no value.
fn is_free(db: &ClauseDb, v: u32) -> bool
    requires low { 1 ≤ v }
    requires high { v ≤ db.now.trail.vars }
    ensures { IsTrue result ↔ (entry_of db.now.trail.entries v ≡ None) }
{
    db.value(v).is_none()
}

/// The first free variable from a place of the ring on.
fn first_free(ring: &Rings, db: &ClauseDb, from: Option<u32>) -> Option<u32>
    requires ring { IsRing db.now.trail.vars ring.now }
    requires from { ForSome from (Stands ring.now 0) }
    ensures free { IfSome result (IsFreeIn db.now.trail) }
    ensures none { from ≡ first_in (list_of ring.now 0) → IsNone result → AllGiven db.now.trail }
{
    let mut at = from;
    while let Some(v) = at {
        if is_free(db, v) {
            return at;
        }
        at = ring.after(v);
    }
    None
}

/// The more active of two variables, the first where they are equally active.
fn livelier(activity: &[u64], v: u32, w: u32) -> u32
    requires first { v < length activity.now }
    requires second { w < length activity.now }
    ensures { (result ≡ v) ⊎ (result ≡ w) }
{
    if activity[w as usize] > activity[v as usize] {
        w
    } else {
        v
    }
}

/// The most active of the first free variables of the ring, from one of them on.
fn most_active(ring: &Rings, activity: &[u64], db: &ClauseDb, first: u32) -> u32
    requires ring { IsRing db.now.trail.vars ring.now }
    requires activity { length activity.now ≡ db.now.trail.vars + 1 }
    requires first { IsFreeIn db.now.trail first }
    ensures { IsFreeIn db.now.trail result }
{
    let mut best = first;
    let mut met = 1u32;
    let mut at = ring.after(first);
    'places: for _ in 0..MOST_PLACES {
        let Some(v) = at else { break };
        if is_free(db, v) {
            best = livelier(activity, best, v);
            met += 1;
            if met >= LOOKED_AT {
                return best;
            }
        }
        at = ring.after(v);
    }
    best
}

/// Makes a variable the first of the ring.
fn move_to_front(ring: &mut Rings, vars: u32, v: u32)
    requires ring { IsRing vars ring.old }
    requires low { 1 ≤ v }
    requires high { v ≤ vars }
    ensures { IsRing vars ring.new }
{
    let _vars = vars;
    ring.unlink(v);
    ring.push_front(0, v);
}

/// The most active free variable of the heap, where there is one. Those before it leave the heap.
fn top_of(heap: Option<&mut Heap>, activity: &[u64], db: &ClauseDb) -> Option<u32>
    ensures { IfSome result (IsFreeIn db.now.trail) }
{
    let heap = heap?;
    for _ in 0..db.vars() {
        let v = heap.pop(activity)?;
        if v > 0 && v <= db.vars() && db.value(v).is_none() {
            return Some(v);
        }
    }
    None
}

/// A heap of the variables, where they are many.
fn heap_of(alloc: Global, vars: u32) -> Result<Option<Heap>, AllocError> {
    if vars < LEAST_HEAP {
        return Ok(None);
    }
    Ok(Some(Heap::with(alloc, vars)?))
}

impl Order {
    /// The variables, the last one first.
    pub fn with(alloc: Global, vars: u32) -> Result<Order, AllocError>
        requires { vars ≤ 2 ^ 27 }
        ensures { IfOk result (λ o. o ≡ vars) }
    {
        let places = vars as usize + 1;
        let mut ring = Rings::with(alloc, 1, vars + 1)?;
        let activity = vec![in alloc; 0; places]?;
        let heap = heap_of(alloc, vars)?;
        let phases = Phases::with(alloc, vars)?;
        push_all(&mut ring, vars);
        Ok(Order {
            vars,
            ring,
            activity,
            heap,
            phases,
            gain: FIRST_GAIN,
            start: 0,
            listed: Listed::new(alloc),
            profile: Profile::Activity,
        })
    }

    /// The order in which a list of literals comes before all other variables.
    pub fn with_first(alloc: Global, vars: u32, first: &[Lit]) -> Result<Order, AllocError>
        requires { vars ≤ 2 ^ 27 }
        ensures { IfOk result (λ o. o ≡ vars) }
    {
        let listed = Listed::with(alloc, first)?;
        let mut order = Order::with(alloc, vars)?;
        order.listed = listed;
        order.profile = Profile::InOrder;
        Ok(order)
    }

    /// Decides these literals before all others from here on, in place of those of before. Each is given up where it is
    /// refuted, or where it was decided in many conflicts.
    pub fn set_targets(&mut self, targets: &[Lit]) -> Result<(), AllocError>
        ensures { self.new ≡ self.old }
    {
        self.listed.replace(targets)
    }

    /// Decides these literals before all others from here on, in place of those of before. They are given up together,
    /// after many conflicts.
    pub fn set_wish(&mut self, wish: &[Lit]) -> Result<(), AllocError>
        ensures { self.new ≡ self.old }
    {
        self.listed.wish(wish)
    }

    /// How many of the literals that are decided first were given up.
    pub fn given_up(&self) -> usize {
        self.listed.given_up()
    }

    /// How it searches.
    pub fn profile(&self) -> Profile {
        self.profile
    }

    /// The literal to be decided, none where no variable is free.
    pub fn pick(&mut self, db: &ClauseDb) -> Option<Lit>
        requires { db.now.trail.vars ≡ self.old }
        ensures free { IfSome result (λ l. IsFreeIn db.now.trail l.var) }
        ensures none { IsNone result → AllGiven db.now.trail }
        ensures vars { self.new ≡ self.old }
    {
        if let Some(l) = self.listed.next(db) {
            return Some(l);
        }
        if matches!(self.profile, Profile::Activity)
            && let Some(var) = top_of(self.heap.as_mut(), self.activity.as_slice(), db)
        {
            return Some(Lit::of(var, self.phases.of(var)));
        }
        let first = self.first(db)?;
        self.start = first;
        let var = match self.profile {
            Profile::Activity => most_active(&self.ring, self.activity.as_slice(), db, first),
            Profile::InOrder => first,
        };
        Some(Lit::of(var, self.phases.of(var)))
    }

    /// The first free variable, sought from where the last search ended, and then from the front.
    fn first(&self, db: &ClauseDb) -> Option<u32>
        requires { db.now.trail.vars ≡ self.now }
        ensures free { IfSome result (IsFreeIn db.now.trail) }
        ensures none { IsNone result → AllGiven db.now.trail }
    {
        if self.start > 0
            && let Some(v) = first_free(&self.ring, db, Some(self.start))
        {
            return Some(v);
        }
        first_free(&self.ring, db, self.ring.first(0))
    }

    /// The next search begins at the front: variables became free.
    pub fn rewind(&mut self)
        ensures { self.new ≡ self.old }
    {
        self.start = 0;
        self.listed.rewind();
        self.phases.change();
    }

    /// The next calls look for this.
    pub fn set_aim(&mut self, aim: Aim)
        ensures { self.new ≡ self.old }
    {
        self.phases.set_aim(aim);
    }

    /// Keeps the phase of a literal whose variable becomes free.
    pub fn save(&mut self, l: Lit)
        ensures { self.new ≡ self.old }
    {
        self.phases.save(l);
        if let Some(heap) = self.heap.as_mut() {
            heap.put(self.activity.as_slice(), l.var);
        }
    }

    /// Bumps the variables of a conflict. Without a heap it sorts them and puts them in front, the most active one first.
    pub fn bump(&mut self, db: &ClauseDb, bumped: &mut Vec<u32>)
        ensures { self.new ≡ self.old }
    {
        self.phases.note_conflict(db);
        self.listed.note_conflict(db);
        if self.heap.is_none() {
            let activity = self.activity.as_slice();
            bumped.sort_unstable_by_key(|v| activity.get(*v as usize).copied());
        }
        for v in bumped.iter() {
            if *v > 0 && *v <= self.vars {
                self.raise(*v);
            }
        }
        self.gain = self.gain.saturating_add(self.gain / GAIN_PARTS);
        if self.gain > MOST_GAIN {
            self.scale_down();
        }
        self.start = 0;
    }

    /// Bumps a variable, and puts it in front where there is no heap.
    fn raise(&mut self, v: u32)
        requires low { 1 ≤ v }
        requires high { v ≤ self.old }
        ensures { self.new ≡ self.old }
    {
        let place = v as usize;
        self.activity[place] = self.activity[place].saturating_add(self.gain);
        match self.heap.as_mut() {
            Some(heap) => heap.bump(self.activity.as_slice(), v),
            None => move_to_front(&mut self.ring, self.vars, v),
        }
    }

    /// Puts all variables back into the heap, for another search.
    pub fn refill(&mut self)
        ensures { self.new ≡ self.old }
    {
        if let Some(heap) = self.heap.as_mut() {
            for v in 1..self.vars + 1 {
                heap.put(self.activity.as_slice(), v);
            }
        }
    }

    /// Makes all activities smaller, and the gain.
    fn scale_down(&mut self)
        ensures { self.new ≡ self.old }
    {
        for a in self.activity.iter_mut() {
            *a >>= SCALE;
        }
        self.gain >>= SCALE;
    }
}
