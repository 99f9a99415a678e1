#![tactic(auto)]
// The calls that change a bench, on words that hold a sound one, with what they tell the dual module. Each is the call of the crates below, which has no
// scan of the slots, and the notices of an accepted one. Assumes nothing.
ghost use Rattle.std.specs.Prelude.{◌≡◌};
ghost use Rattle.ledger_spec.specs.Bench.{filling, floor};
ghost use Rattle.ledger_spec.specs.Calls.{Defect, Blossom, Expand, SetState, Grow, Fuse, Clear, Mark};
ghost use Rattle.ledger_spec.specs.Named.{handle_named, state_named};
ghost use Rattle.deed_circles.specs.Given.{hands_given, pairs_given};
ghost use Rattle.bench_views.specs.Fit.{SoundWords};
ghost use Rattle.call_told.specs.Shown.{refused_by};
ghost use Rattle.call_told.specs.Told.{Told};

use bench_words::WORDS;
use kinds::{GrowState, Handle, Vertex};
use outcome_notices::Notices;

// A number, the node made or named (all fields 0 where there is none), and the notices.
#[derive(Clone, Copy)]
pub struct Answer {
    pub number: u8,
    pub node: Handle,
    pub notices: Notices,
}

impl Answer {
    // No node and no notice: a refusal's number, or 0 of a call that has neither.
    pub fn refused(number: u8) -> Answer
        ensures { result ≡ refused_by number }
    {
        let node = Handle::nobody();
        let notices = outcome_notices::none();
        Answer {
            number,
            node,
            notices,
        }
    }
}

pub fn create_defect_node(b: &mut [u64; WORDS], unit: u8, vertex: Vertex) -> Answer
    requires { SoundWords b.old }
    ensures { Told b.old (Defect unit vertex.0) result b.new }
{
    let made = call_sound::create_defect_node(b, unit, vertex);
    if made.number != 0 {
        return Answer::refused(made.number);
    }
    let node = made.node;
    let notices = outcome_notices::defect(node);
    Answer {
        number: 0,
        node,
        notices,
    }
}

pub fn create_blossom(b: &mut [u64; WORDS], unit: u8, members: &[u64], touching: &[u64]) -> Answer
    requires { SoundWords b.old }
    ensures { Told b.old (Blossom unit (hands_given members.now) (pairs_given touching.now)) result b.new }
{
    let made = call_sound_blossom::create_blossom(b, unit, members, touching);
    if made.number != 0 {
        return Answer::refused(made.number);
    }
    let node = made.node;
    let notices = outcome_notices::blossom(members, node);
    Answer {
        number: 0,
        node,
        notices,
    }
}

// The notices follow the circle, which is there only before the work; so the number is asked first.
pub fn expand_blossom(b: &mut [u64; WORDS], unit: u8, node: Handle) -> Answer
    requires { SoundWords b.old }
    ensures { Told b.old (Expand unit (handle_named node)) result b.new }
{
    let number = refuse_calls::expand_number(b, unit, node);
    if number != 0 {
        return Answer::refused(number);
    }
    let notices = outcome_notices::expand(b, node);
    let made = call_sound::expand_blossom(b, unit, node);
    let node = made.node;
    Answer {
        number: made.number,
        node,
        notices,
    }
}

pub fn set_grow_state(b: &mut [u64; WORDS], unit: u8, node: Handle, state: GrowState) -> Answer
    requires { SoundWords b.old }
    ensures { Told b.old (SetState unit (handle_named node) (state_named state)) result b.new }
{
    let made = call_sound::set_grow_state(b, unit, node, state);
    if made.number != 0 {
        return Answer::refused(made.number);
    }
    let notices = outcome_notices::state(node, state);
    let node = made.node;
    Answer {
        number: 0,
        node,
        notices,
    }
}

pub fn grow(b: &mut [u64; WORDS], unit: u8, length: i64) -> Answer
    requires { SoundWords b.old }
    ensures { Told b.old (Grow unit length) result b.new }
{
    let made = call_sound::grow(b, unit, length);
    if made.number != 0 {
        return Answer::refused(made.number);
    }
    let notices = outcome_notices::grown(length);
    let node = made.node;
    Answer {
        number: 0,
        node,
        notices,
    }
}

// Fuse, clear and a mark tell nothing.
pub fn fuse(b: &mut [u64; WORDS], parent: u8, left: u8, right: u8) -> Answer
    requires { SoundWords b.old }
    ensures { Told b.old (Fuse parent left right) result b.new }
{
    let made = call_sound::fuse(b, parent, left, right);
    Answer::refused(made.number)
}

pub fn clear(b: &mut [u64; WORDS], unit: u8) -> Answer
    requires { SoundWords b.old }
    ensures { Told b.old (Clear unit) result b.new }
{
    let made = call_sound::clear(b, unit);
    Answer::refused(made.number)
}

pub fn mark_filling(b: &mut [u64; WORDS], unit: u8) -> Answer
    requires { SoundWords b.old }
    ensures { Told b.old (Mark unit filling) result b.new }
{
    let made = call_sound::mark_filling(b, unit);
    Answer::refused(made.number)
}

pub fn mark_floored(b: &mut [u64; WORDS], unit: u8) -> Answer
    requires { SoundWords b.old }
    ensures { Told b.old (Mark unit floor) result b.new }
{
    let made = call_sound::mark_floored(b, unit);
    Answer::refused(made.number)
}
