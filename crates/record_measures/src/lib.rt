#![tactic(auto)]
// A record at a place of a slice: whether one stands there, its bytes, its line's bytes with the newline, and whether every pair is the member.
// Assumes nothing.
ghost use Rattle.std.specs.Prelude.{◌≡◌, drop};
ghost use Rattle.record_spec.specs.Reader.{record_in};
ghost use Rattle.record_measures.specs.Measures.{measured_of, nothing as «no_record»};

pub mod digits; // digits.rt: how many digits a number has
mod letters; // letters.rt: the records of every letter but B
mod blossoms; // blossoms.rt: B, with its members

// What stands at a place: no record, if the size is 0.
#[derive(Clone, Copy)]
pub struct Measured {
    pub size: usize,
    pub line: usize,
    pub own: bool,
}

fn nothing() -> Measured
    ensures { result ≡ «no_record» }
{
    Measured {
        size: 0,
        line: 0,
        own: true,
    }
}

// The record at a place, measured.
pub fn measure(t: &[u8], p: usize) -> Measured
    ensures { result ≡ measured_of (record_in (drop p t.now)) }
{
    if t.len() < 2 {
        return nothing();
    }
    if t.len() - 2 < p {
        return nothing();
    }
    let letter = t[p];
    let unit = record_numbers::byte_at(t, p + 1);
    let q = p + 2;
    match letter {
        b'D' => letters::defect(t, unit, q),
        b'B' => blossoms::blossom(t, unit, q),
        b'E' => letters::expand(t, unit, q),
        b'S' => letters::set_state(t, unit, q),
        b'G' => letters::grow(t, unit, q),
        b'F' => letters::fuse(t, unit, q),
        b'C' => letters::unit_alone(unit),
        b'K' => letters::unit_alone(unit),
        _ => nothing(),
    }
}
