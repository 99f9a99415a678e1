// The calls on words that hold a sound bench, without notices: the number, and the node made as a word. No scan of the slots. Assumes nothing.
ghost use Rattle.std.specs.Prelude.{◌≡◌};
ghost use Rattle.ledger_spec.specs.Calls.{Defect, Blossom, Expand, SetState, Grow, Fuse, Clear};
ghost use Rattle.bench_views.specs.Given.{hand_given};
ghost use Rattle.deed_circles.specs.Given.{hands_given, pairs_given};
ghost use Rattle.bench_views.specs.Fit.{SoundWords};
ghost use Rattle.link_answers.specs.Forms.{state_given};
ghost use Rattle.dual_ledger.specs.Linked.{Settled, node_of};

use bench_words::WORDS;
use kinds::Vertex;

pub fn dual_ledger_trusted_create_defect_node(
    bench: &mut [u64; WORDS],
    unit: u8,
    vertex: u32,
    node: &mut u64,
) -> u8
    requires { SoundWords bench.old }
    ensures settled { Settled bench.old (Defect unit vertex) result bench.new }
    ensures node_after { node.new ≡ node_of bench.old (Defect unit vertex) }
{
    let made = call_sound::create_defect_node(bench, unit, Vertex(vertex));
    *node = link_answers::node_word(made.node);
    made.number
}

pub fn dual_ledger_trusted_create_blossom(
    bench: &mut [u64; WORDS],
    unit: u8,
    members: &[u64],
    touching: &[u64],
    node: &mut u64,
) -> u8
    requires { SoundWords bench.old }
    ensures settled { Settled bench.old (Blossom unit (hands_given members.now) (pairs_given touching.now)) result bench.new }
    ensures node_after { node.new ≡ node_of bench.old (Blossom unit (hands_given members.now) (pairs_given touching.now)) }
{
    let made = call_sound_blossom::create_blossom(bench, unit, members, touching);
    *node = link_answers::node_word(made.node);
    made.number
}

pub fn dual_ledger_trusted_expand_blossom(bench: &mut [u64; WORDS], unit: u8, node: u64) -> u8
    requires { SoundWords bench.old }
    ensures { Settled bench.old (Expand unit (hand_given node)) result bench.new }
{
    let h = link_answers::hand(node);
    let made = call_sound::expand_blossom(bench, unit, h);
    made.number
}

// Grows, stays or shrinks by the sign of state.
pub fn dual_ledger_trusted_set_grow_state(
    bench: &mut [u64; WORDS],
    unit: u8,
    node: u64,
    state: i8,
) -> u8
    requires { SoundWords bench.old }
    ensures { Settled bench.old (SetState unit (hand_given node) (state_given state)) result bench.new }
{
    let h = link_answers::hand(node);
    let to = link_answers::state_given(state);
    let made = call_sound::set_grow_state(bench, unit, h, to);
    made.number
}

pub fn dual_ledger_trusted_grow(bench: &mut [u64; WORDS], unit: u8, length: i64) -> u8
    requires { SoundWords bench.old }
    ensures { Settled bench.old (Grow unit length) result bench.new }
{
    let made = call_sound::grow(bench, unit, length);
    made.number
}

pub fn dual_ledger_trusted_fuse(bench: &mut [u64; WORDS], parent: u8, left: u8, right: u8) -> u8
    requires { SoundWords bench.old }
    ensures { Settled bench.old (Fuse parent left right) result bench.new }
{
    let made = call_sound::fuse(bench, parent, left, right);
    made.number
}

pub fn dual_ledger_trusted_clear(bench: &mut [u64; WORDS], unit: u8) -> u8
    requires { SoundWords bench.old }
    ensures { Settled bench.old (Clear unit) result bench.new }
{
    let made = call_sound::clear(bench, unit);
    made.number
}
