// The calls on any words: BROKEN (2) where they hold no sound bench, with every word as it was; else the call on sound words, whose answer is written over the
// caller's words. Assumes nothing.
ghost use Rattle.ledger_spec.specs.Calls.{Defect, Blossom, Expand, SetState, Grow, Fuse, Clear};
ghost use Rattle.bench_views.specs.Given.{hand_given};
ghost use Rattle.deed_circles.specs.Given.{hands_given, pairs_given};
ghost use Rattle.link_answers.specs.Forms.{state_given};
ghost use Rattle.dual_ledger.specs.Linked.{CalledBy, Left};

use crate::{told_calls, trusted_calls};
use bench_words::WORDS;
use kinds::numbers;
use link_told::ANSWER;

pub fn dual_ledger_create_defect_node(
    bench: &mut [u64; WORDS],
    unit: u8,
    vertex: u32,
    answer: &mut [u64; ANSWER],
) -> u8
    ensures { CalledBy bench.old (Defect unit vertex) result answer.old answer.new bench.new }
{
    if !sound_lent::is_bench(bench) {
        return link_told::refused(numbers::BROKEN, answer);
    }
    told_calls::dual_ledger_told_create_defect_node(bench, unit, vertex, answer)
}

pub fn dual_ledger_create_blossom(
    bench: &mut [u64; WORDS],
    unit: u8,
    members: &[u64],
    touching: &[u64],
    answer: &mut [u64; ANSWER],
) -> u8
    ensures { CalledBy bench.old (Blossom unit (hands_given members.now) (pairs_given touching.now)) result answer.old answer.new bench.new }
{
    if !sound_lent::is_bench(bench) {
        return link_told::refused(numbers::BROKEN, answer);
    }
    told_calls::dual_ledger_told_create_blossom(bench, unit, members, touching, answer)
}

pub fn dual_ledger_expand_blossom(
    bench: &mut [u64; WORDS],
    unit: u8,
    node: u64,
    answer: &mut [u64; ANSWER],
) -> u8
    ensures { CalledBy bench.old (Expand unit (hand_given node)) result answer.old answer.new bench.new }
{
    if !sound_lent::is_bench(bench) {
        return link_told::refused(numbers::BROKEN, answer);
    }
    told_calls::dual_ledger_told_expand_blossom(bench, unit, node, answer)
}

// Grows, stays or shrinks by the sign of state.
pub fn dual_ledger_set_grow_state(
    bench: &mut [u64; WORDS],
    unit: u8,
    node: u64,
    state: i8,
    answer: &mut [u64; ANSWER],
) -> u8
    ensures { CalledBy bench.old (SetState unit (hand_given node) (state_given state)) result answer.old answer.new bench.new }
{
    if !sound_lent::is_bench(bench) {
        return link_told::refused(numbers::BROKEN, answer);
    }
    told_calls::dual_ledger_told_set_grow_state(bench, unit, node, state, answer)
}

pub fn dual_ledger_grow(
    bench: &mut [u64; WORDS],
    unit: u8,
    length: i64,
    answer: &mut [u64; ANSWER],
) -> u8
    ensures { CalledBy bench.old (Grow unit length) result answer.old answer.new bench.new }
{
    if !sound_lent::is_bench(bench) {
        return link_told::refused(numbers::BROKEN, answer);
    }
    told_calls::dual_ledger_told_grow(bench, unit, length, answer)
}

// Fuse and clear tell nothing.
pub fn dual_ledger_fuse(bench: &mut [u64; WORDS], parent: u8, left: u8, right: u8) -> u8
    ensures { Left bench.old (Fuse parent left right) result bench.new }
{
    if !sound_lent::is_bench(bench) {
        return numbers::BROKEN;
    }
    trusted_calls::dual_ledger_trusted_fuse(bench, parent, left, right)
}

pub fn dual_ledger_clear(bench: &mut [u64; WORDS], unit: u8) -> u8
    ensures { Left bench.old (Clear unit) result bench.new }
{
    if !sound_lent::is_bench(bench) {
        return numbers::BROKEN;
    }
    trusted_calls::dual_ledger_trusted_clear(bench, unit)
}
