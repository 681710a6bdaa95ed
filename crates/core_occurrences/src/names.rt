//! Which body each id has, and which id each body has.

ghost use Rattle.std.specs.Prelude.{◌≡◌, ◌+◌, ◌<◌, ◌≤◌, ℕ, length, vec_len, vec_capacity};
ghost use Rattle.core_occurrences.specs.Bodies.{AreInverse, named_by, swapped};

/// Adds numbers that are their own names, up to the last one.
pub fn push_names(names: &mut Vec<u32>, more: u32, last: u32)
    requires room { vec_len names.old + more ≤ vec_capacity names.old }
    requires last { length names.old.items + more ≡ last + 1 }
    ensures same { (b : ℕ) → named_by names.new.items b ≡ named_by names.old.items b }
    ensures count { length names.new.items ≡ last + 1 }
{
    for k in 0..more {
        prove!(k < more);
        names.push(last - (more - 1 - k)).unwrap();
    }
}

/// Exchanges the bodies of two ids. It takes constant time.
pub fn exchange_bodies(bodies: &mut [u32], cores: &mut [u32], first: u32, second: u32)
    requires inverse { AreInverse bodies.old cores.old }
    requires first { first < length bodies.old }
    requires second { second < length bodies.old }
    ensures inverse { AreInverse bodies.new cores.new }
    ensures swapped { (b : ℕ) → named_by cores.new b ≡ swapped first second (named_by cores.old b) }
{
    let body = bodies[first as usize];
    let other = bodies[second as usize];
    bodies[first as usize] = other;
    bodies[second as usize] = body;
    cores[body as usize] = second;
    cores[other as usize] = first;
}
