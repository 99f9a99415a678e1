// The exports of dual_ledger::trusted_reads, the reads and checks on sound words: each has the clauses of the function that it calls. Assumes nothing.
ghost use Rattle.std.specs.Prelude.{◌≡◌};
ghost use Rattle.ledger_spec.specs.Reads.{sum_of, speed_of, count_of, handle_at_index, value_of, belongs};
ghost use Rattle.ledger_spec.specs.Walk.{outer_of, below_of, first_vertex, vertices_into};
ghost use Rattle.ledger_spec.specs.Check.{check_of, strict_of};
ghost use Rattle.bench_views.specs.Given.{hand_given};
ghost use Rattle.bench_views.specs.Fit.{SoundWords};
ghost use Rattle.bench_views.specs.View.{view};
ghost use Rattle.link_answers.specs.Forms.{node_word, indexed, flag_word, signed_word, outer_words, worded};

use bench_words::WORDS;

#[unsafe(no_mangle)]
pub extern "C" fn dual_ledger_trusted_sum_dual_variables(
    bench: &[u64; WORDS],
    unit: u8,
    sum: &mut u64,
) -> u8
    requires { SoundWords bench.now }
    ensures { (result, sum.new) ≡ worded signed_word (sum_of (view bench.now) unit) }
{
    dual_ledger::trusted_reads::dual_ledger_trusted_sum_dual_variables(bench, unit, sum)
}

#[unsafe(no_mangle)]
pub extern "C" fn dual_ledger_trusted_sum_grow_speed(
    bench: &[u64; WORDS],
    unit: u8,
    speed: &mut u64,
) -> u8
    requires { SoundWords bench.now }
    ensures { (result, speed.new) ≡ worded signed_word (speed_of (view bench.now) unit) }
{
    dual_ledger::trusted_reads::dual_ledger_trusted_sum_grow_speed(bench, unit, speed)
}

#[unsafe(no_mangle)]
pub extern "C" fn dual_ledger_trusted_nodes_count(
    bench: &[u64; WORDS],
    unit: u8,
    count: &mut u64,
) -> u8
    requires { SoundWords bench.now }
    ensures { (result, count.new) ≡ count_of (view bench.now) unit }
{
    dual_ledger::trusted_reads::dual_ledger_trusted_nodes_count(bench, unit, count)
}

#[unsafe(no_mangle)]
pub extern "C" fn dual_ledger_trusted_get_node(
    bench: &[u64; WORDS],
    unit: u8,
    index: u32,
    node: &mut u64,
) -> u8
    requires { SoundWords bench.now }
    ensures { (result, node.new) ≡ indexed (handle_at_index (view bench.now) unit index) }
{
    dual_ledger::trusted_reads::dual_ledger_trusted_get_node(bench, unit, index, node)
}

#[unsafe(no_mangle)]
pub extern "C" fn dual_ledger_trusted_check_ptr_belonging(
    bench: &[u64; WORDS],
    unit: u8,
    node: u64,
    inside: &mut u64,
) -> u8
    requires { SoundWords bench.now }
    ensures { (result, inside.new) ≡ worded flag_word (belongs (view bench.now) unit (hand_given node)) }
{
    dual_ledger::trusted_reads::dual_ledger_trusted_check_ptr_belonging(bench, unit, node, inside)
}

#[unsafe(no_mangle)]
pub extern "C" fn dual_ledger_trusted_get_dual_variable(
    bench: &[u64; WORDS],
    node: u64,
    value: &mut u64,
) -> u8
    requires { SoundWords bench.now }
    ensures { (result, value.new) ≡ worded signed_word (value_of (view bench.now) (hand_given node)) }
{
    dual_ledger::trusted_reads::dual_ledger_trusted_get_dual_variable(bench, node, value)
}

#[unsafe(no_mangle)]
pub extern "C" fn dual_ledger_trusted_get_ancestor_blossom(
    bench: &[u64; WORDS],
    node: u64,
    ancestor: &mut u64,
    links: &mut u64,
) -> u8
    requires { SoundWords bench.now }
    ensures { (result, (ancestor.new, links.new)) ≡ worded outer_words (outer_of (view bench.now) (hand_given node)) }
{
    dual_ledger::trusted_reads::dual_ledger_trusted_get_ancestor_blossom(
        bench, node, ancestor, links,
    )
}

#[unsafe(no_mangle)]
pub extern "C" fn dual_ledger_trusted_get_secondary_ancestor_blossom(
    bench: &[u64; WORDS],
    node: u64,
    second: &mut u64,
) -> u8
    requires { SoundWords bench.now }
    ensures { (result, second.new) ≡ worded node_word (below_of (view bench.now) (hand_given node)) }
{
    dual_ledger::trusted_reads::dual_ledger_trusted_get_secondary_ancestor_blossom(
        bench, node, second,
    )
}

#[unsafe(no_mangle)]
pub extern "C" fn dual_ledger_trusted_get_representative_vertex(
    bench: &[u64; WORDS],
    node: u64,
    vertex: &mut u32,
) -> u8
    requires { SoundWords bench.now }
    ensures { (result, vertex.new) ≡ first_vertex (view bench.now) (hand_given node) }
{
    dual_ledger::trusted_reads::dual_ledger_trusted_get_representative_vertex(bench, node, vertex)
}

#[unsafe(no_mangle)]
pub extern "C" fn dual_ledger_trusted_get_all_vertices(
    bench: &[u64; WORDS],
    node: u64,
    out: &mut [u32],
    count: &mut u64,
) -> u8
    requires { SoundWords bench.now }
    ensures { (result, (count.new, out.new)) ≡ vertices_into (view bench.now) (hand_given node) out.old }
{
    dual_ledger::trusted_reads::dual_ledger_trusted_get_all_vertices(bench, node, out, count)
}

#[unsafe(no_mangle)]
pub extern "C" fn dual_ledger_trusted_sanity_check(
    bench: &[u64; WORDS],
    unit: u8,
    verdict: &mut u64,
    index: &mut u64,
) -> u8
    requires { SoundWords bench.now }
    ensures { (result, (verdict.new, index.new)) ≡ check_of (view bench.now) unit }
{
    dual_ledger::trusted_reads::dual_ledger_trusted_sanity_check(bench, unit, verdict, index)
}

#[unsafe(no_mangle)]
pub extern "C" fn dual_ledger_trusted_strict_check(
    bench: &[u64; WORDS],
    unit: u8,
    verdict: &mut u64,
    index: &mut u64,
) -> u8
    requires { SoundWords bench.now }
    ensures { (result, (verdict.new, index.new)) ≡ strict_of (view bench.now) unit }
{
    dual_ledger::trusted_reads::dual_ledger_trusted_strict_check(bench, unit, verdict, index)
}
