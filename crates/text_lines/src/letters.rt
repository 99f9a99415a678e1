// What each letter but B takes after its first number, and that nothing follows. Assumes nothing.
ghost use Rattle.std.specs.Prelude.{◌≡◌};
ghost use Rattle.ledger_spec.specs.Operations.{D, E, S, G, F, C, K};
ghost use Rattle.ledger_spec.specs.Grammar.{a_unit as «a_unit», a_vertex as «a_vertex», a_serial as «a_serial», an_amount, a_state as «a_state», then, no_more};
ghost use Rattle.text_fields.specs.Places.{from};
ghost use Rattle.text_lines.specs.Shown.{line_shown};

use crate::Line;
use kinds::{Serial, Vertex};

pub fn defect(s: &[u8], unit: u8, place: usize) -> Line
    ensures { result ≡ line_shown (then «a_vertex» (λ v. no_more (Some (D unit v))) (from s.now place)) }
{
    let Some((v, e)) = text_fields::next_number(s, place, 0, 4294967295) else {
        return Line::Wrong;
    };
    if e < s.len() {
        return Line::Wrong;
    }
    Line::Defect {
        unit,
        vertex: Vertex(v as u32),
    }
}

pub fn expand(s: &[u8], unit: u8, place: usize) -> Line
    ensures { result ≡ line_shown (then «a_serial» (λ n. no_more (Some (E unit n))) (from s.now place)) }
{
    let Some((n, e)) = text_fields::next_number(s, place, 1, 4294967295) else {
        return Line::Wrong;
    };
    if e < s.len() {
        return Line::Wrong;
    }
    Line::Expand {
        unit,
        serial: Serial(n as u32),
    }
}

pub fn set_state(s: &[u8], unit: u8, place: usize) -> Line
    ensures { result ≡ line_shown (then «a_serial» (λ n. then «a_state» (λ g. no_more (Some (S unit n g)))) (from s.now place)) }
{
    let Some((n, e)) = text_fields::next_number(s, place, 1, 4294967295) else {
        return Line::Wrong;
    };
    let Some((g, z)) = text_fields::next_state(s, e) else {
        return Line::Wrong;
    };
    if z < s.len() {
        return Line::Wrong;
    }
    Line::SetState {
        unit,
        serial: Serial(n as u32),
        state: g,
    }
}

pub fn grow(s: &[u8], unit: u8, place: usize) -> Line
    ensures { result ≡ line_shown (then an_amount (λ l. no_more (Some (G unit l))) (from s.now place)) }
{
    let Some((l, e)) = text_fields::next_length(s, place) else {
        return Line::Wrong;
    };
    if e < s.len() {
        return Line::Wrong;
    }
    Line::Grow { unit, length: l }
}

pub fn fuse(s: &[u8], parent: u8, place: usize) -> Line
    ensures { result ≡ line_shown (then «a_unit» (λ l. then «a_unit» (λ m. no_more (Some (F parent l m)))) (from s.now place)) }
{
    let Some((l, e)) = text_fields::next_number(s, place, 0, 255) else {
        return Line::Wrong;
    };
    let Some((m, z)) = text_fields::next_number(s, e, 0, 255) else {
        return Line::Wrong;
    };
    if z < s.len() {
        return Line::Wrong;
    }
    Line::Fuse {
        parent,
        left: l as u8,
        right: m as u8,
    }
}

pub fn clear(s: &[u8], unit: u8, place: usize) -> Line
    ensures { result ≡ line_shown (no_more (Some (C unit)) (from s.now place)) }
{
    if place < s.len() {
        return Line::Wrong;
    }
    Line::Clear { unit }
}

pub fn check(s: &[u8], unit: u8, place: usize) -> Line
    ensures { result ≡ line_shown (no_more (Some (K unit)) (from s.now place)) }
{
    if place < s.len() {
        return Line::Wrong;
    }
    Line::Check { unit }
}
