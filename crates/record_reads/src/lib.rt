#![tactic(auto)]
// The record at a place of a slice where one is known to stand, read as its line: letter and numbers. A blossom's members stand 4 bytes further, 12 bytes each,
// and are read by their number. Nothing is copied. Assumes nothing.
ghost use Rattle.std.specs.Prelude.{◌≡◌, ◌+◌, ◌≤◌, length, drop};
ghost use Rattle.ledger_spec.specs.Operations.{D, B, E, G, F};
ghost use Rattle.record_spec.specs.Numbers.{length_in as «length_in»};
ghost use Rattle.record_spec.specs.Reader.{record_in};
ghost use Rattle.record_spec.specs.Places.{at as «number_at»};
ghost use Rattle.record_measures.specs.Measures.{members_at};
ghost use Rattle.record_reads.specs.Reads.{Recorded, line_found, line_of_record, state_line, state_of as «state_of»};

use kinds::{GrowState, Serial, Vertex};
use text_lines::Line;

// A state from its byte, which is one: 0, 1, or 255 for -1.
fn state_of(n: u64) -> GrowState
    ensures { result ≡ «state_of» n }
{
    match n {
        0 => GrowState::Stay,
        1 => GrowState::Grow,
        _ => GrowState::Shrink,
    }
}

fn serial_at(s: &[u8], q: usize) -> Serial
    requires { q + 4 ≤ length s.now }
    ensures { result.0 ≡ «number_at» 4 s.now q }
{
    Serial(record_numbers::four_at(s, q) as u32)
}

// ---- what stands after a letter and a unit, from place q on

fn defect(s: &[u8], unit: u8, q: usize) -> Line
    requires { q + 4 ≤ length s.now }
    ensures { result ≡ line_of_record (D unit («number_at» 4 s.now q)) }
{
    let vertex = Vertex(record_numbers::four_at(s, q) as u32);
    Line::Defect { unit, vertex }
}

fn blossom(s: &[u8], unit: u8, q: usize) -> Line
    requires { q + 2 ≤ length s.now }
    ensures { result ≡ line_of_record (B unit (members_at («number_at» 2 s.now q) s.now (q + 2))) }
{
    let count = record_numbers::two_at(s, q) as usize;
    Line::Blossom { unit, count }
}

fn expand(s: &[u8], unit: u8, q: usize) -> Line
    requires { q + 4 ≤ length s.now }
    ensures { result ≡ line_of_record (E unit («number_at» 4 s.now q)) }
{
    let serial = serial_at(s, q);
    Line::Expand { unit, serial }
}

fn set_state(s: &[u8], unit: u8, q: usize) -> Line
    requires { q + 5 ≤ length s.now }
    ensures { result ≡ state_line unit («number_at» 4 s.now q) («number_at» 1 s.now (q + 4)) }
{
    let serial = serial_at(s, q);
    let state = state_of(record_numbers::byte_at(s, q + 4));
    Line::SetState {
        unit,
        serial,
        state,
    }
}

fn grow(s: &[u8], unit: u8, q: usize) -> Line
    requires { q + 8 ≤ length s.now }
    ensures { result ≡ line_of_record (G unit («length_in» («number_at» 8 s.now q))) }
{
    let length = group_lent::length_of(record_numbers::eight_at(s, q));
    Line::Grow { unit, length }
}

fn fuse(s: &[u8], parent: u8, q: usize) -> Line
    requires { q + 2 ≤ length s.now }
    ensures { result ≡ line_of_record (F parent («number_at» 1 s.now q) («number_at» 1 s.now (q + 1))) }
{
    let left = s[q];
    let right = s[q + 1];
    Line::Fuse {
        parent,
        left,
        right,
    }
}

// The record at place p, as its line.
pub fn line_at(s: &[u8], p: usize) -> Line
    requires { Recorded s.now p }
    ensures { result ≡ line_found (record_in (drop p s.now)) }
{
    let letter = s[p];
    let unit = s[p + 1];
    let q = p + 2;
    match letter {
        b'D' => defect(s, unit, q),
        b'B' => blossom(s, unit, q),
        b'E' => expand(s, unit, q),
        b'S' => set_state(s, unit, q),
        b'G' => grow(s, unit, q),
        b'F' => fuse(s, unit, q),
        b'C' => Line::Clear { unit },
        b'K' => Line::Check { unit },
        _ => Line::Wrong,
    }
}
