// The exports of dual_ledger::told_calls, the calls on sound words, with notices: each has the clauses of the function that it calls. Assumes nothing.
ghost use Rattle.ledger_spec.specs.Calls.{Defect, Blossom, Expand, SetState, Grow};
ghost use Rattle.bench_views.specs.Given.{hand_given};
ghost use Rattle.deed_circles.specs.Given.{hands_given, pairs_given};
ghost use Rattle.bench_views.specs.Fit.{SoundWords};
ghost use Rattle.link_answers.specs.Forms.{state_given};
ghost use Rattle.dual_ledger.specs.Linked.{ToldBy};

use bench_words::WORDS;
use link_told::ANSWER;

#[unsafe(no_mangle)]
pub extern "C" fn dual_ledger_told_create_defect_node(
    bench: &mut [u64; WORDS],
    unit: u8,
    vertex: u32,
    answer: &mut [u64; ANSWER],
) -> u8
    requires { SoundWords bench.old }
    ensures { ToldBy bench.old (Defect unit vertex) result answer.old answer.new bench.new }
{
    dual_ledger::told_calls::dual_ledger_told_create_defect_node(bench, unit, vertex, answer)
}

#[unsafe(no_mangle)]
pub extern "C" fn dual_ledger_told_create_blossom(
    bench: &mut [u64; WORDS],
    unit: u8,
    members: &[u64],
    touching: &[u64],
    answer: &mut [u64; ANSWER],
) -> u8
    requires { SoundWords bench.old }
    ensures { ToldBy bench.old (Blossom unit (hands_given members.now) (pairs_given touching.now)) result answer.old answer.new bench.new }
{
    dual_ledger::told_calls::dual_ledger_told_create_blossom(bench, unit, members, touching, answer)
}

// What is told follows the circle, which is there only before the work; so the number is asked first.
#[unsafe(no_mangle)]
pub extern "C" fn dual_ledger_told_expand_blossom(
    bench: &mut [u64; WORDS],
    unit: u8,
    node: u64,
    answer: &mut [u64; ANSWER],
) -> u8
    requires { SoundWords bench.old }
    ensures { ToldBy bench.old (Expand unit (hand_given node)) result answer.old answer.new bench.new }
{
    dual_ledger::told_calls::dual_ledger_told_expand_blossom(bench, unit, node, answer)
}

// Grows, stays or shrinks by the sign of state.
#[unsafe(no_mangle)]
pub extern "C" fn dual_ledger_told_set_grow_state(
    bench: &mut [u64; WORDS],
    unit: u8,
    node: u64,
    state: i8,
    answer: &mut [u64; ANSWER],
) -> u8
    requires { SoundWords bench.old }
    ensures { ToldBy bench.old (SetState unit (hand_given node) (state_given state)) result answer.old answer.new bench.new }
{
    dual_ledger::told_calls::dual_ledger_told_set_grow_state(bench, unit, node, state, answer)
}

#[unsafe(no_mangle)]
pub extern "C" fn dual_ledger_told_grow(
    bench: &mut [u64; WORDS],
    unit: u8,
    length: i64,
    answer: &mut [u64; ANSWER],
) -> u8
    requires { SoundWords bench.old }
    ensures { ToldBy bench.old (Grow unit length) result answer.old answer.new bench.new }
{
    dual_ledger::told_calls::dual_ledger_told_grow(bench, unit, length, answer)
}
