#![tactic(auto)]
// The text program's lines: what a line says, by ledger_spec's `Grammar`. Assumes nothing.
ghost use Rattle.ledger_spec.specs.Grammar.{rest, line_of};
ghost use Rattle.text_fields.specs.Places.{from};
ghost use Rattle.text_lines.specs.Shown.{ReadAs};

use kinds::{GrowState, Serial, Vertex};

mod blossoms; // blossoms.rt: B, with its serials
mod letters; // letters.rt: the other seven letters

// What a line says. A blossom's serials stand in the slice that was lent to read it.
#[derive(Clone, Copy)]
pub enum Line {
    Defect {
        unit: u8,
        vertex: Vertex,
    },
    Blossom {
        unit: u8,
        count: usize,
    },
    Expand {
        unit: u8,
        serial: Serial,
    },
    SetState {
        unit: u8,
        serial: Serial,
        state: GrowState,
    },
    Grow {
        unit: u8,
        length: i64,
    },
    Fuse {
        parent: u8,
        left: u8,
        right: u8,
    },
    Clear {
        unit: u8,
    },
    Check {
        unit: u8,
    },
    Wrong,
}

impl Line {
    // The most bytes of a line, its newline left out.
    pub const MOST: usize = 1023;
}

// What a line says after its letter and its first number.
fn rest_of(s: &[u8], serials: &mut [u64], letter: u8, unit: u8, place: usize) -> Line
    ensures { ReadAs (rest letter unit (from s.now place)) serials.old serials.new result }
{
    match letter {
        b'D' => letters::defect(s, unit, place),
        b'B' => blossoms::blossom(s, serials, unit, place),
        b'E' => letters::expand(s, unit, place),
        b'S' => letters::set_state(s, unit, place),
        b'G' => letters::grow(s, unit, place),
        b'F' => letters::fuse(s, unit, place),
        b'C' => letters::clear(s, unit, place),
        b'K' => letters::check(s, unit, place),
        _ => Line::Wrong,
    }
}

// Reads a line, its newline left out. A blossom's serials go to the front of the lent slice, as many as it holds; any other line leaves it as it was.
pub fn read_line(s: &[u8], serials: &mut [u64]) -> Line
    ensures { ReadAs (line_of s.now) serials.old serials.new result }
{
    if Line::MOST < s.len() {
        return Line::Wrong;
    }
    if text_fields::part_end(s, 0, b' ') == 1 {
        let letter = s[0];
        let Some((n, place)) = text_fields::next_number(s, 1, 0, 255) else {
            return Line::Wrong;
        };
        let unit = n as u8;
        return rest_of(s, serials, letter, unit, place);
    }
    Line::Wrong
}
