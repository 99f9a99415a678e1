// An operation in words: what stands before a blossom's members, by the record's line, and the members by their places. Assumes nothing.
ghost use Rattle.std.specs.Prelude.{◌≡◌, [], ◌∷◌, ◌+◌, ◌*◌, ◌≤◌, length as «long»};
ghost use Rattle.std.proofs.lemmas.List.Edits.{sets};
ghost use Rattle.record_spec.specs.Places.{at as «number_at»};
ghost use Rattle.record_measures.specs.Measures.{members_at};
ghost use Rattle.record_gets.specs.Words.{member_words};
ghost use Rattle.record_gets.specs.Gets.{state_word, front_of, front_words};

use kinds::GrowState;
use text_lines::Line;

// The words before the members, `many` of them, 2 to 4; and how many members there are.
#[derive(Clone, Copy)]
pub struct Front {
    pub many: usize,
    pub letter: u64,
    pub unit: u64,
    pub third: u64,
    pub fourth: u64,
    pub members: usize,
}

fn state_word(state: GrowState) -> u64
    ensures { result ≡ state_word state }
{
    match state {
        GrowState::Grow => 1,
        GrowState::Stay => 0,
        GrowState::Shrink => 18446744073709551615,
    }
}

fn two(letter: u64, unit: u8) -> Front
    ensures { result ≡ record { many = 2; letter = letter; unit = unit; third = 0; fourth = 0; members = 0 } }
{
    Front {
        many: 2,
        letter,
        unit: unit as u64,
        third: 0,
        fourth: 0,
        members: 0,
    }
}

fn three(letter: u64, unit: u8, third: u64, members: usize) -> Front
    ensures { result ≡ record { many = 3; letter = letter; unit = unit; third = third; fourth = 0; members = members } }
{
    Front {
        many: 3,
        letter,
        unit: unit as u64,
        third,
        fourth: 0,
        members,
    }
}

fn four(letter: u64, unit: u8, third: u64, fourth: u64) -> Front
    ensures { result ≡ record { many = 4; letter = letter; unit = unit; third = third; fourth = fourth; members = 0 } }
{
    Front {
        many: 4,
        letter,
        unit: unit as u64,
        third,
        fourth,
        members: 0,
    }
}

pub fn front_of(line: Line) -> Front
    ensures { result ≡ front_of line }
{
    match line {
        Line::Defect { unit, vertex } => three(68, unit, vertex.0 as u64, 0),
        Line::Blossom { unit, count } => three(66, unit, count as u64, count),
        Line::Expand { unit, serial } => three(69, unit, serial.0 as u64, 0),
        Line::SetState {
            unit,
            serial,
            state,
        } => four(83, unit, serial.0 as u64, state_word(state)),
        Line::Grow { unit, length } => three(71, unit, record_puts::complement_of(length), 0),
        Line::Fuse {
            parent,
            left,
            right,
        } => four(70, parent, left as u64, right as u64),
        Line::Clear { unit } => two(67, unit),
        Line::Check { unit } => two(75, unit),
        Line::Wrong => two(0, 0),
    }
}

// Writes the words before the members at the front.
pub fn put_front(out: &mut [u64], f: Front)
    requires { (2 ≤ f.many) × ((f.many ≤ 4) × (f.many ≤ «long» out.old)) }
    ensures { out.new ≡ sets out.old 0 (front_words f) }
{
    out[0] = f.letter;
    out[1] = f.unit;
    if f.many == 2 {
        return;
    }
    out[2] = f.third;
    if f.many == 3 {
        return;
    }
    out[3] = f.fourth;
}

fn put_member(s: &[u8], p: usize, out: &mut [u64], at: usize)
    requires { (p + 12 ≤ «long» s.now) × (at + 3 ≤ «long» out.old) }
    ensures { out.new ≡ sets out.old at («number_at» 4 s.now p ∷ «number_at» 4 s.now (p + 4) ∷ «number_at» 4 s.now (p + 8) ∷ []) }
{
    out[at] = record_numbers::four_at(s, p);
    out[at + 1] = record_numbers::four_at(s, p + 4);
    out[at + 2] = record_numbers::four_at(s, p + 8);
}

// Writes the members from place q on at a place.
pub fn put_members(s: &[u8], q: usize, count: usize, out: &mut [u64], place: usize)
    requires { (q + 12 * count ≤ «long» s.now) × (place + 3 * count ≤ «long» out.old) }
    ensures { out.new ≡ sets out.old place (member_words (members_at count s.now q)) }
{
    for i in 0..count {
        put_member(s, q + 12 * i, out, place + 3 * i);
    }
}
