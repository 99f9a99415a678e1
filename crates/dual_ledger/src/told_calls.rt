// The calls on words that hold a sound bench, with notices: the number, and the answer written over the caller's words. No scan of the slots, and no value of
// notices on the way. Assumes nothing.
ghost use Rattle.ledger_spec.specs.Calls.{Defect, Blossom, Expand, SetState, Grow};
ghost use Rattle.bench_views.specs.Given.{hand_given};
ghost use Rattle.deed_circles.specs.Given.{hands_given, pairs_given};
ghost use Rattle.bench_views.specs.Fit.{SoundWords};
ghost use Rattle.link_answers.specs.Forms.{state_given};
ghost use Rattle.dual_ledger.specs.Linked.{ToldBy};

use bench_words::WORDS;
use kinds::Vertex;
use link_told::ANSWER;

pub fn dual_ledger_told_create_defect_node(
    bench: &mut [u64; WORDS],
    unit: u8,
    vertex: u32,
    answer: &mut [u64; ANSWER],
) -> u8
    requires { SoundWords bench.old }
    ensures { ToldBy bench.old (Defect unit vertex) result answer.old answer.new bench.new }
{
    let made = call_sound::create_defect_node(bench, unit, Vertex(vertex));
    if made.number != 0 {
        return link_told::refused(made.number, answer);
    }
    link_told::defect(answer, made.node);
    0
}

pub fn dual_ledger_told_create_blossom(
    bench: &mut [u64; WORDS],
    unit: u8,
    members: &[u64],
    touching: &[u64],
    answer: &mut [u64; ANSWER],
) -> u8
    requires { SoundWords bench.old }
    ensures { ToldBy bench.old (Blossom unit (hands_given members.now) (pairs_given touching.now)) result answer.old answer.new bench.new }
{
    let made = call_sound_blossom::create_blossom(bench, unit, members, touching);
    if made.number != 0 {
        return link_told::refused(made.number, answer);
    }
    link_told::blossom(answer, members, made.node);
    0
}

// What is told follows the circle, which is there only before the work; so the number is asked first.
pub fn dual_ledger_told_expand_blossom(
    bench: &mut [u64; WORDS],
    unit: u8,
    node: u64,
    answer: &mut [u64; ANSWER],
) -> u8
    requires { SoundWords bench.old }
    ensures { ToldBy bench.old (Expand unit (hand_given node)) result answer.old answer.new bench.new }
{
    let h = link_answers::hand(node);
    let number = refuse_calls::expand_number(bench, unit, h);
    if number != 0 {
        return link_told::refused(number, answer);
    }
    link_told::expanded(answer, bench, h);
    deed_circles::remove_blossom(bench, unit as usize, h);
    0
}

// Grows, stays or shrinks by the sign of state.
pub fn dual_ledger_told_set_grow_state(
    bench: &mut [u64; WORDS],
    unit: u8,
    node: u64,
    state: i8,
    answer: &mut [u64; ANSWER],
) -> u8
    requires { SoundWords bench.old }
    ensures { ToldBy bench.old (SetState unit (hand_given node) (state_given state)) result answer.old answer.new bench.new }
{
    let h = link_answers::hand(node);
    let to = link_answers::state_given(state);
    let made = call_sound::set_grow_state(bench, unit, h, to);
    if made.number != 0 {
        return link_told::refused(made.number, answer);
    }
    link_told::state(answer, h, to);
    0
}

pub fn dual_ledger_told_grow(
    bench: &mut [u64; WORDS],
    unit: u8,
    length: i64,
    answer: &mut [u64; ANSWER],
) -> u8
    requires { SoundWords bench.old }
    ensures { ToldBy bench.old (Grow unit length) result answer.old answer.new bench.new }
{
    let made = call_sound::grow(bench, unit, length);
    if made.number != 0 {
        return link_told::refused(made.number, answer);
    }
    link_told::grown(answer, length);
    0
}
