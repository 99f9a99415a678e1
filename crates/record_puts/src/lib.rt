#![tactic(auto)]
// A line's record, written at a place of a lent slice that has room for it: its letter, its unit, its numbers; a blossom's pairs are the members
// themselves. Assumes nothing.
ghost use Rattle.std.specs.Prelude.{◌≡◌, ◌++◌, map, ◌+◌, ◌*◌, ◌≤◌, length, take, length as «long»};
ghost use Rattle.ledger_spec.specs.Named.{state_named};
ghost use Rattle.text_decimals.specs.Wrote.{Wrote};
ghost use Rattle.record_spec.specs.Numbers.{bytes, complement};
ghost use Rattle.record_spec.specs.Operations.{itself};
ghost use Rattle.record_spec.specs.Records.{member_fields, spelled, state_byte};
ghost use Rattle.record_puts.specs.Puts.{record_by, head_of, Enough};

use kinds::GrowState;
use text_lines::Line;

// A length's number in 8 bytes: two's complement.
pub fn complement_of(z: i64) -> u64
    ensures { result ≡ complement z }
{
    if z < 0 {
        return 18446744073709551615 - ((-1 - z) as u64);
    }
    z as u64
}

// A state's byte: -1 as 255.
fn state_byte(state: GrowState) -> u64
    ensures { result ≡ state_byte (state_named state) }
{
    match state {
        GrowState::Grow => 1,
        GrowState::Stay => 0,
        GrowState::Shrink => 255,
    }
}

fn put_head(out: &mut [u8], at: usize, letter: u64, unit: u8) -> usize
    requires { at + 2 ≤ length out.old }
    ensures { Wrote out.old at (head_of letter unit) out.new result }
{
    let p = record_numbers::put_byte(out, at, letter);
    record_numbers::put_byte(out, p, unit as u64)
}

// A letter, a unit and a number of 4 bytes.
fn put_four_after(out: &mut [u8], at: usize, letter: u64, unit: u8, n: u64) -> usize
    requires { at + 6 ≤ length out.old }
    ensures { Wrote out.old at (head_of letter unit ++ bytes 4 n) out.new result }
{
    let p = put_head(out, at, letter, unit);
    record_numbers::put_four(out, p, n)
}

fn put_state(out: &mut [u8], at: usize, unit: u8, serial: u64, state: GrowState) -> usize
    requires { at + 7 ≤ length out.old }
    ensures { Wrote out.old at ((head_of 83 unit ++ bytes 4 serial) ++ bytes 1 (state_byte (state_named state))) out.new result }
{
    let p = put_four_after(out, at, 83, unit, serial);
    let n = state_byte(state);
    record_numbers::put_byte(out, p, n)
}

fn put_length(out: &mut [u8], at: usize, unit: u8, length: i64) -> usize
    requires { at + 10 ≤ «long» out.old }
    ensures { Wrote out.old at (head_of 71 unit ++ bytes 8 (complement length)) out.new result }
{
    let p = put_head(out, at, 71, unit);
    let n = complement_of(length);
    record_numbers::put_eight(out, p, n)
}

fn put_fuse(out: &mut [u8], at: usize, parent: u8, left: u8, right: u8) -> usize
    requires { at + 4 ≤ length out.old }
    ensures { Wrote out.old at ((head_of 70 parent ++ bytes 1 left) ++ bytes 1 right) out.new result }
{
    let p = put_head(out, at, 70, parent);
    let q = record_numbers::put_byte(out, p, left as u64);
    record_numbers::put_byte(out, q, right as u64)
}

// A member, its pair the member itself.
fn put_member(out: &mut [u8], at: usize, n: u64) -> usize
    requires { at + 12 ≤ length out.old }
    ensures { Wrote out.old at ((bytes 4 n ++ bytes 4 n) ++ bytes 4 n) out.new result }
{
    let p = record_numbers::put_four(out, at, n);
    let q = record_numbers::put_four(out, p, n);
    record_numbers::put_four(out, q, n)
}

fn put_members(out: &mut [u8], at: usize, serials: &[u64], count: usize) -> usize
    requires { (at + 12 * count ≤ length out.old) × (count ≤ length serials.now) }
    ensures { Wrote out.old at (spelled (member_fields (map itself (take count serials.now)))) out.new result }
{
    let mut p = at;
    for &n in &serials[..count] {
        p = put_member(out, p, n);
    }
    p
}

fn put_blossom(out: &mut [u8], at: usize, unit: u8, serials: &[u64], count: usize) -> usize
    requires { (at + (4 + 12 * count) ≤ length out.old) × (count ≤ length serials.now) }
    ensures { Wrote out.old at ((head_of 66 unit ++ bytes 2 count) ++ spelled (member_fields (map itself (take count serials.now)))) out.new result }
{
    let p = put_head(out, at, 66, unit);
    let q = record_numbers::put_two(out, p, count as u64);
    put_members(out, q, serials, count)
}

// A line's record; a blossom's serials stand in front of a slice.
pub fn put_record(out: &mut [u8], at: usize, line: Line, serials: &[u64]) -> usize
    requires { Enough out.old at line serials.now }
    ensures { Wrote out.old at (record_by line serials.now) out.new result }
{
    match line {
        Line::Defect { unit, vertex } => put_four_after(out, at, 68, unit, vertex.0 as u64),
        Line::Blossom { unit, count } => put_blossom(out, at, unit, serials, count),
        Line::Expand { unit, serial } => put_four_after(out, at, 69, unit, serial.0 as u64),
        Line::SetState {
            unit,
            serial,
            state,
        } => put_state(out, at, unit, serial.0 as u64, state),
        Line::Grow { unit, length } => put_length(out, at, unit, length),
        Line::Fuse {
            parent,
            left,
            right,
        } => put_fuse(out, at, parent, left, right),
        Line::Clear { unit } => put_head(out, at, 67, unit),
        Line::Check { unit } => put_head(out, at, 75, unit),
        Line::Wrong => at,
    }
}
