// The records of every letter but B, after the letter and the unit: what is left starts at a place. Assumes nothing.
ghost use Rattle.std.specs.Prelude.{◌≡◌, ℕ, ◌≤◌, ◌<◌, length, drop, List};
ghost use Rattle.record_measures.specs.Measures.{tried, state_digits as «state_digits»};

use crate::Measured;

// D unit vertex
pub fn defect(t: &[u8], unit: u64, q: usize) -> Measured
    requires { (q ≤ length t.now) × (unit < 256) }
    ensures { result ≡ tried 68 unit (drop q t.now) }
{
    if t.len() - q < 4 {
        return crate::nothing();
    }
    let vertex = record_numbers::four_at(t, q);
    let a = crate::digits::digits(unit);
    let b = crate::digits::digits(vertex);
    Measured {
        size: 6,
        line: 4 + a + b,
        own: true,
    }
}

// E unit serial
pub fn expand(t: &[u8], unit: u64, q: usize) -> Measured
    requires { (q ≤ length t.now) × (unit < 256) }
    ensures { result ≡ tried 69 unit (drop q t.now) }
{
    if t.len() - q < 4 {
        return crate::nothing();
    }
    let serial = record_numbers::four_at(t, q);
    if serial == 0 {
        return crate::nothing();
    }
    let a = crate::digits::digits(unit);
    let b = crate::digits::digits(serial);
    Measured {
        size: 6,
        line: 4 + a + b,
        own: true,
    }
}

// How many bytes a state's text has, if a byte is one: 0, 1, or 255 for -1; else 0.
fn state_digits(n: u64) -> usize
    ensures { (result ≡ «state_digits» n) × (result ≤ 2) }
{
    match n {
        0 => 1,
        1 => 1,
        255 => 2,
        _ => 0,
    }
}

// S unit serial state
pub fn set_state(t: &[u8], unit: u64, q: usize) -> Measured
    requires { (q ≤ length t.now) × (unit < 256) }
    ensures { result ≡ tried 83 unit (drop q t.now) }
{
    if t.len() - q < 5 {
        return crate::nothing();
    }
    let serial = record_numbers::four_at(t, q);
    let state = record_numbers::byte_at(t, q + 4);
    if serial == 0 {
        return crate::nothing();
    }
    let d = state_digits(state);
    if d == 0 {
        return crate::nothing();
    }
    let a = crate::digits::digits(unit);
    let b = crate::digits::digits(serial);
    Measured {
        size: 7,
        line: 5 + a + b + d,
        own: true,
    }
}

// G unit length
pub fn grow(t: &[u8], unit: u64, q: usize) -> Measured
    requires { (q ≤ length t.now) × (unit < 256) }
    ensures { result ≡ tried 71 unit (drop q t.now) }
{
    if t.len() - q < 8 {
        return crate::nothing();
    }
    let length = record_numbers::eight_at(t, q);
    let a = crate::digits::digits(unit);
    let b = crate::digits::length_digits(length);
    Measured {
        size: 10,
        line: 4 + a + b,
        own: true,
    }
}

// F parent left right
pub fn fuse(t: &[u8], parent: u64, q: usize) -> Measured
    requires { (q ≤ length t.now) × (parent < 256) }
    ensures { result ≡ tried 70 parent (drop q t.now) }
{
    if t.len() - q < 2 {
        return crate::nothing();
    }
    let left = record_numbers::byte_at(t, q);
    let right = record_numbers::byte_at(t, q + 1);
    let a = crate::digits::digits(parent);
    let b = crate::digits::digits(left);
    let d = crate::digits::digits(right);
    Measured {
        size: 4,
        line: 5 + a + b + d,
        own: true,
    }
}

// C unit, K unit
pub fn unit_alone(unit: u64) -> Measured
    requires { unit < 256 }
    ensures { (s : List ℕ) → (result ≡ tried 67 unit s) × (result ≡ tried 75 unit s) }
{
    let a = crate::digits::digits(unit);
    Measured {
        size: 2,
        line: 3 + a,
        own: true,
    }
}
