#![tactic(auto)]
// One line of the text program: the call that it says on a sound bench, and its four numbers. Serials become nodes by hints that no answer depends on.
// Every line leaves the bench sound. Assumes nothing.
ghost use Rattle.std.specs.Prelude.{◌≡◌, List, ℕ, ◌≤◌, length};
ghost use Rattle.ledger_spec.specs.Operations.{D, E, S, G, F, C, K};
ghost use Rattle.ledger_spec.specs.Grammar.{Line as Said};
ghost use Rattle.ledger_spec.specs.Lines.{shown};
ghost use Rattle.ledger_spec.specs.Named.{state_named};
ghost use Rattle.text_lines.specs.Shown.{ReadAs};
ghost use Rattle.text_numbers.specs.Numbers.{numbers_of};
ghost use Rattle.bench_views.specs.Fit.{SoundWords};
ghost use Rattle.bench_views.specs.View.{view};
ghost use Rattle.text_calls.specs.Turned.{Turned, Few, TurnedBlossom};

use bench_serials::HINTS;
use bench_words::WORDS;
use kinds::{GrowState, Serial, Vertex, numbers};
use outcomes::Made;
use text_lines::Line;
use text_numbers::Reply;

// As many serials of a line as are looked at: one more than a circle may have, which is enough to refuse it.
pub const MOST: usize = 65;

// A call's answer, with the interface as it stands now.
pub fn tell(b: &[u64; WORDS], unit: u8, made: Made) -> Reply
    requires { SoundWords b.now }
    ensures { numbers_of result ≡ shown made.number made.node.serial.0 (view b.now) unit }
{
    let node = made.node;
    text_numbers::show(b, unit, made.number, node.serial.0)
}

// Hints where a node that was made stands.
pub fn keep(made: Made, hints: &mut [u16; HINTS]) {
    let node = made.node;
    let serial = node.serial;
    bench_serials::remember(
        hints,
        serial,
        (node.unit as usize) * 64 + (node.slot as usize),
    );
}

fn defect(b: &mut [u64; WORDS], unit: u8, vertex: Vertex, hints: &mut [u16; HINTS]) -> Reply
    requires { SoundWords b.old }
    ensures { Turned b.old (Some (D unit vertex.0)) result b.new }
{
    let made = call_sound::create_defect_node(b, unit, vertex);
    keep(made, hints);
    tell(b, unit, made)
}

pub fn few(count: usize) -> usize
    ensures { Few count result }
{
    if count < MOST {
        return count;
    }
    MOST
}

fn blossom(
    b: &mut [u64; WORDS],
    unit: u8,
    serials: &mut [u64],
    count: usize,
    hints: &mut [u16; HINTS],
) -> Reply
    requires { SoundWords b.old × (65 ≤ length serials.old) }
    ensures { TurnedBlossom b.old unit serials.old count result b.new }
{
    let n = few(count);
    text_members::name(b, serials, n, hints);
    let each_itself = [0u64; 1];
    let made = call_sound_blossom::create_blossom(b, unit, &serials[..n], &each_itself[..0]);
    keep(made, hints);
    tell(b, unit, made)
}

fn expand(b: &mut [u64; WORDS], unit: u8, serial: Serial, hints: &mut [u16; HINTS]) -> Reply
    requires { SoundWords b.old }
    ensures { Turned b.old (Some (E unit serial.0)) result b.new }
{
    let node = bench_serials::named(b, serial, hints);
    let made = call_sound::expand_blossom(b, unit, node);
    tell(b, unit, made)
}

fn set_state(
    b: &mut [u64; WORDS],
    unit: u8,
    serial: Serial,
    state: GrowState,
    hints: &mut [u16; HINTS],
) -> Reply
    requires { SoundWords b.old }
    ensures { Turned b.old (Some (S unit serial.0 (state_named state))) result b.new }
{
    let node = bench_serials::named(b, serial, hints);
    let made = call_sound::set_grow_state(b, unit, node, state);
    tell(b, unit, made)
}

fn grow(b: &mut [u64; WORDS], unit: u8, length: i64) -> Reply
    requires { SoundWords b.old }
    ensures { Turned b.old (Some (G unit length)) result b.new }
{
    let made = call_sound::grow(b, unit, length);
    tell(b, unit, made)
}

fn fuse(b: &mut [u64; WORDS], parent: u8, left: u8, right: u8) -> Reply
    requires { SoundWords b.old }
    ensures { Turned b.old (Some (F parent left right)) result b.new }
{
    let made = call_sound::fuse(b, parent, left, right);
    tell(b, parent, made)
}

fn clear(b: &mut [u64; WORDS], unit: u8) -> Reply
    requires { SoundWords b.old }
    ensures { Turned b.old (Some (C unit)) result b.new }
{
    let made = call_sound::clear(b, unit);
    tell(b, unit, made)
}

fn check(b: &mut [u64; WORDS], unit: u8) -> Reply
    requires { SoundWords b.old }
    ensures { Turned b.old (Some (K unit)) result b.new }
{
    let checked = check_sound::sanity_check(b, unit);
    text_numbers::show(b, unit, checked.number, checked.verdict as u32)
}

// Does what a line says. A blossom's serials stand in the slice, as many as it has room for; what they are afterwards says nothing.
pub fn turn(
    b: &mut [u64; WORDS],
    line: Line,
    serials: &mut [u64],
    hints: &mut [u16; HINTS],
) -> Reply
    requires { SoundWords b.old × (65 ≤ length serials.old) }
    ensures { (l : Said) (before : List ℕ) → length before ≡ length serials.old → ReadAs l before serials.old line → Turned b.old l result b.new }
{
    match line {
        Line::Defect { unit, vertex } => defect(b, unit, vertex, hints),
        Line::Blossom { unit, count } => blossom(b, unit, serials, count, hints),
        Line::Expand { unit, serial } => expand(b, unit, serial, hints),
        Line::SetState {
            unit,
            serial,
            state,
        } => set_state(b, unit, serial, state, hints),
        Line::Grow { unit, length } => grow(b, unit, length),
        Line::Fuse {
            parent,
            left,
            right,
        } => fuse(b, parent, left, right),
        Line::Clear { unit } => clear(b, unit),
        Line::Check { unit } => check(b, unit),
        Line::Wrong => text_numbers::silent(numbers::LINE, 0),
    }
}
