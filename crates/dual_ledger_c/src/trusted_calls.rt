// The exports of dual_ledger::trusted_calls, the calls on sound words, without notices: each has the clauses of the function that it calls. Assumes nothing.
ghost use Rattle.std.specs.Prelude.{◌≡◌};
ghost use Rattle.ledger_spec.specs.Calls.{Defect, Blossom, Expand, SetState, Grow, Fuse, Clear};
ghost use Rattle.bench_views.specs.Given.{hand_given};
ghost use Rattle.deed_circles.specs.Given.{hands_given, pairs_given};
ghost use Rattle.bench_views.specs.Fit.{SoundWords};
ghost use Rattle.link_answers.specs.Forms.{state_given};
ghost use Rattle.dual_ledger.specs.Linked.{Settled, node_of};

use bench_words::WORDS;

#[unsafe(no_mangle)]
pub extern "C" fn dual_ledger_trusted_create_defect_node(
    bench: &mut [u64; WORDS],
    unit: u8,
    vertex: u32,
    node: &mut u64,
) -> u8
    requires { SoundWords bench.old }
    ensures settled { Settled bench.old (Defect unit vertex) result bench.new }
    ensures node_after { node.new ≡ node_of bench.old (Defect unit vertex) }
{
    dual_ledger::trusted_calls::dual_ledger_trusted_create_defect_node(bench, unit, vertex, node)
}

#[unsafe(no_mangle)]
pub extern "C" fn dual_ledger_trusted_create_blossom(
    bench: &mut [u64; WORDS],
    unit: u8,
    members: &[u64],
    touching: &[u64],
    node: &mut u64,
) -> u8
    requires { SoundWords bench.old }
    ensures settled { Settled bench.old (Blossom unit (hands_given members.now) (pairs_given touching.now)) result bench.new }
    ensures node_after { node.new ≡ node_of bench.old (Blossom unit (hands_given members.now) (pairs_given touching.now)) }
{
    dual_ledger::trusted_calls::dual_ledger_trusted_create_blossom(
        bench, unit, members, touching, node,
    )
}

#[unsafe(no_mangle)]
pub extern "C" fn dual_ledger_trusted_expand_blossom(
    bench: &mut [u64; WORDS],
    unit: u8,
    node: u64,
) -> u8
    requires { SoundWords bench.old }
    ensures { Settled bench.old (Expand unit (hand_given node)) result bench.new }
{
    dual_ledger::trusted_calls::dual_ledger_trusted_expand_blossom(bench, unit, node)
}

// Grows, stays or shrinks by the sign of state.
#[unsafe(no_mangle)]
pub extern "C" fn dual_ledger_trusted_set_grow_state(
    bench: &mut [u64; WORDS],
    unit: u8,
    node: u64,
    state: i8,
) -> u8
    requires { SoundWords bench.old }
    ensures { Settled bench.old (SetState unit (hand_given node) (state_given state)) result bench.new }
{
    dual_ledger::trusted_calls::dual_ledger_trusted_set_grow_state(bench, unit, node, state)
}

#[unsafe(no_mangle)]
pub extern "C" fn dual_ledger_trusted_grow(bench: &mut [u64; WORDS], unit: u8, length: i64) -> u8
    requires { SoundWords bench.old }
    ensures { Settled bench.old (Grow unit length) result bench.new }
{
    dual_ledger::trusted_calls::dual_ledger_trusted_grow(bench, unit, length)
}

#[unsafe(no_mangle)]
pub extern "C" fn dual_ledger_trusted_fuse(
    bench: &mut [u64; WORDS],
    parent: u8,
    left: u8,
    right: u8,
) -> u8
    requires { SoundWords bench.old }
    ensures { Settled bench.old (Fuse parent left right) result bench.new }
{
    dual_ledger::trusted_calls::dual_ledger_trusted_fuse(bench, parent, left, right)
}

#[unsafe(no_mangle)]
pub extern "C" fn dual_ledger_trusted_clear(bench: &mut [u64; WORDS], unit: u8) -> u8
    requires { SoundWords bench.old }
    ensures { Settled bench.old (Clear unit) result bench.new }
{
    dual_ledger::trusted_calls::dual_ledger_trusted_clear(bench, unit)
}
