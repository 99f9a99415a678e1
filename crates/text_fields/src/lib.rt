#![tactic(auto)]
// A line's fields, one after the other. A place is where a field ends: the index of its space, or the line's length; what follows a place is
// the fields after it (`from`). Assumes nothing.
ghost use Rattle.std.specs.Prelude.{◌≡◌, ◌≤◌, length};
ghost use Rattle.ledger_spec.specs.Grammar.{an_amount, a_state, state_in, step};
ghost use Rattle.text_fields.specs.Places.{from, Ends, FieldIs, NumberIs, length_of, state_of, to_state};

use kinds::GrowState;

// The end of the part that starts at an index: the next mark, or the end of the bytes. A space ends a field, a newline a line.
pub fn part_end(s: &[u8], start: usize, mark: u8) -> usize
    requires { start ≤ length s.now }
    ensures { Ends mark s.now start result }
{
    match s[start..].iter().position(|b| *b == mark) {
        Some(i) => start + i,
        None => s.len(),
    }
}

// The field after a place, if there is one.
pub fn next_field(s: &[u8], place: usize) -> Option<(usize, usize)>
    ensures { FieldIs s.now place result }
{
    if place < s.len() {
        let a = place + 1;
        let e = part_end(s, a, b' ');
        return Some((a, e));
    }
    None
}

// The number in the field after a place, if it lies in a range.
pub fn next_number(s: &[u8], place: usize, least: u64, most: u64) -> Option<(u64, usize)>
    ensures { NumberIs s.now place least most result }
{
    let (a, e) = next_field(s, place)?;
    let n = text_decimals::number_in(&s[a..e], least, most)?;
    Some((n, e))
}

// The signed number in the field after a place.
pub fn next_length(s: &[u8], place: usize) -> Option<(i64, usize)>
    ensures { length_of s.now result ≡ step an_amount (from s.now place) }
{
    let (a, e) = next_field(s, place)?;
    let z = text_decimals::integer_in(&s[a..e])?;
    Some((z, e))
}

// 1, 0 or -1 as a state, with the place after it.
fn state_at(z: i64, e: usize) -> Option<(GrowState, usize)>
    ensures { result ≡ to_state e (state_in (Some z)) }
{
    match z {
        1 => Some((GrowState::Grow, e)),
        0 => Some((GrowState::Stay, e)),
        -1 => Some((GrowState::Shrink, e)),
        _ => None,
    }
}

// The state in the field after a place.
pub fn next_state(s: &[u8], place: usize) -> Option<(GrowState, usize)>
    ensures { state_of s.now result ≡ step a_state (from s.now place) }
{
    let (z, e) = next_length(s, place)?;
    state_at(z, e)
}
