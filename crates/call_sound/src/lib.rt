#![tactic(auto)]
// The calls that change a bench, on words that hold a sound one: each decides its number, and where that is 0 does the work in place, with no scan of
// the slots. (Add blossom has a crate of its own.) The answer and the words after are the plain ledger's own. Assumes nothing.
ghost use Rattle.ledger_spec.specs.Bench.{filling, floor};
ghost use Rattle.ledger_spec.specs.Calls.{Defect, Expand, SetState, Grow, Fuse, Clear, Mark};
ghost use Rattle.ledger_spec.specs.Named.{handle_named, state_named};
ghost use Rattle.bench_views.specs.Fit.{SoundWords};
ghost use Rattle.outcomes.specs.Answered.{Answered};

use bench_words::WORDS;
use kinds::{GrowState, Handle, Vertex};
use outcomes::Made;

pub fn create_defect_node(b: &mut [u64; WORDS], unit: u8, vertex: Vertex) -> Made
    requires { SoundWords b.old }
    ensures { Answered b.old (Defect unit vertex.0) result.number result.node b.new }
{
    let number = refuse_calls::defect_number(b, unit);
    if number != 0 {
        return Made::refused(number);
    }
    let node = deed_nodes::add_defect(b, unit as usize, vertex);
    Made { number: 0, node }
}

pub fn set_grow_state(b: &mut [u64; WORDS], unit: u8, node: Handle, state: GrowState) -> Made
    requires { SoundWords b.old }
    ensures { Answered b.old (SetState unit (handle_named node) (state_named state)) result.number result.node b.new }
{
    let number = refuse_calls::state_number(b, unit, node);
    if number != 0 {
        return Made::refused(number);
    }
    deed_nodes::set_state(b, unit as usize, node, state);
    Made { number: 0, node }
}

pub fn grow(b: &mut [u64; WORDS], unit: u8, length: i64) -> Made
    requires { SoundWords b.old }
    ensures { Answered b.old (Grow unit length) result.number result.node b.new }
{
    let number = refuse_calls::grow_number(b, unit, length);
    if number != 0 {
        return Made::refused(number);
    }
    deed_nodes::grow_by(b, unit as usize, length as u64);
    Made::refused(0)
}

pub fn fuse(b: &mut [u64; WORDS], parent: u8, left: u8, right: u8) -> Made
    requires { SoundWords b.old }
    ensures { Answered b.old (Fuse parent left right) result.number result.node b.new }
{
    let number = refuse_calls::fuse_number(b, parent, left, right);
    if number != 0 {
        return Made::refused(number);
    }
    deed_trees::join(b, parent as usize, left as usize, right as usize);
    Made::refused(0)
}

// The whole tree of an interface, at its top. Serials go on.
pub fn clear(b: &mut [u64; WORDS], unit: u8) -> Made
    requires { SoundWords b.old }
    ensures { Answered b.old (Clear unit) result.number result.node b.new }
{
    let number = read_sound::unit_number(b, unit);
    if number != 0 {
        return Made::refused(number);
    }
    deed_trees::wipe(b, unit as usize);
    Made::refused(0)
}

pub fn expand_blossom(b: &mut [u64; WORDS], unit: u8, node: Handle) -> Made
    requires { SoundWords b.old }
    ensures { Answered b.old (Expand unit (handle_named node)) result.number result.node b.new }
{
    let number = refuse_calls::expand_number(b, unit, node);
    if number != 0 {
        return Made::refused(number);
    }
    deed_circles::remove_blossom(b, unit as usize, node);
    Made { number: 0, node }
}

// From now to its clear the interface gives a new node its lowest empty slot.
pub fn mark_filling(b: &mut [u64; WORDS], unit: u8) -> Made
    requires { SoundWords b.old }
    ensures { Answered b.old (Mark unit filling) result.number result.node b.new }
{
    let number = refuse_calls::mark_number(b, unit);
    if number != 0 {
        return Made::refused(number);
    }
    deed_marks::mark_filling(b, unit as usize);
    Made::refused(0)
}

// From now to its clear a growth that takes a value of the interface's tree below 0 is refused.
pub fn mark_floored(b: &mut [u64; WORDS], unit: u8) -> Made
    requires { SoundWords b.old }
    ensures { Answered b.old (Mark unit floor) result.number result.node b.new }
{
    let number = refuse_calls::mark_number(b, unit);
    if number != 0 {
        return Made::refused(number);
    }
    deed_marks::mark_floored(b, unit as usize);
    Made::refused(0)
}
