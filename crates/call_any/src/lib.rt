#![tactic(auto)]
// The public calls: any words at all may be lent, with any handle, number, list and slice. The words are tested once; where they hold no sound bench
// the answer is BROKEN (2) and every word stays as it was; else the call on sound words answers. Assumes nothing.
ghost use Rattle.ledger_spec.specs.Bench.{filling, floor};
ghost use Rattle.ledger_spec.specs.Calls.{Defect, Blossom, Expand, SetState, Grow, Fuse, Clear, Mark};
ghost use Rattle.ledger_spec.specs.Named.{handle_named, state_named};
ghost use Rattle.deed_circles.specs.Given.{hands_given, pairs_given};
ghost use Rattle.sound_bench.specs.Sound.{sound_words};
ghost use Rattle.call_told.specs.Told.{Called};

use bench_words::WORDS;
use call_told::Answer;
use kinds::{GrowState, Handle, Vertex, numbers};

pub fn create_defect_node(b: &mut [u64; WORDS], unit: u8, vertex: Vertex) -> Answer
    ensures { Called (sound_words b.old) b.old (Defect unit vertex.0) result b.new }
{
    if !sound_lent::is_bench(b) {
        return Answer::refused(numbers::BROKEN);
    }
    call_told::create_defect_node(b, unit, vertex)
}

// Members as packed handles, their touching handles two a member, or none; lists of any length.
pub fn create_blossom(b: &mut [u64; WORDS], unit: u8, members: &[u64], touching: &[u64]) -> Answer
    ensures { Called (sound_words b.old) b.old (Blossom unit (hands_given members.now) (pairs_given touching.now)) result b.new }
{
    if !sound_lent::is_bench(b) {
        return Answer::refused(numbers::BROKEN);
    }
    call_told::create_blossom(b, unit, members, touching)
}

pub fn expand_blossom(b: &mut [u64; WORDS], unit: u8, node: Handle) -> Answer
    ensures { Called (sound_words b.old) b.old (Expand unit (handle_named node)) result b.new }
{
    if !sound_lent::is_bench(b) {
        return Answer::refused(numbers::BROKEN);
    }
    call_told::expand_blossom(b, unit, node)
}

pub fn set_grow_state(b: &mut [u64; WORDS], unit: u8, node: Handle, state: GrowState) -> Answer
    ensures { Called (sound_words b.old) b.old (SetState unit (handle_named node) (state_named state)) result b.new }
{
    if !sound_lent::is_bench(b) {
        return Answer::refused(numbers::BROKEN);
    }
    call_told::set_grow_state(b, unit, node, state)
}

pub fn grow(b: &mut [u64; WORDS], unit: u8, length: i64) -> Answer
    ensures { Called (sound_words b.old) b.old (Grow unit length) result b.new }
{
    if !sound_lent::is_bench(b) {
        return Answer::refused(numbers::BROKEN);
    }
    call_told::grow(b, unit, length)
}

pub fn fuse(b: &mut [u64; WORDS], parent: u8, left: u8, right: u8) -> Answer
    ensures { Called (sound_words b.old) b.old (Fuse parent left right) result b.new }
{
    if !sound_lent::is_bench(b) {
        return Answer::refused(numbers::BROKEN);
    }
    call_told::fuse(b, parent, left, right)
}

pub fn clear(b: &mut [u64; WORDS], unit: u8) -> Answer
    ensures { Called (sound_words b.old) b.old (Clear unit) result b.new }
{
    if !sound_lent::is_bench(b) {
        return Answer::refused(numbers::BROKEN);
    }
    call_told::clear(b, unit)
}

pub fn mark_filling(b: &mut [u64; WORDS], unit: u8) -> Answer
    ensures { Called (sound_words b.old) b.old (Mark unit filling) result b.new }
{
    if !sound_lent::is_bench(b) {
        return Answer::refused(numbers::BROKEN);
    }
    call_told::mark_filling(b, unit)
}

pub fn mark_floored(b: &mut [u64; WORDS], unit: u8) -> Answer
    ensures { Called (sound_words b.old) b.old (Mark unit floor) result b.new }
{
    if !sound_lent::is_bench(b) {
        return Answer::refused(numbers::BROKEN);
    }
    call_told::mark_floored(b, unit)
}
