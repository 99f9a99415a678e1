// The exports of dual_ledger::open_reads, the reads and checks on any words: each has the clauses of the function that it calls. Assumes nothing.
ghost use Rattle.std.specs.Prelude.{◌≡◌};
ghost use Rattle.bench_views.specs.Given.{hand_given};
ghost use Rattle.bench_views.specs.View.{view};
ghost use Rattle.link_answers.specs.Forms.{node_word, indexed, flag_word, signed_word, outer_words, worded};
ghost use Rattle.sound_lent.specs.Verdict.{read_words};
ghost use Rattle.ledger_spec.specs.Answers.{sum_read, speed_read, count_read, index_read, belongs_read, value_read, outer_read, below_read, first_read, vertices_read, check_read, strict_read};

use bench_words::WORDS;

#[unsafe(no_mangle)]
pub extern "C" fn dual_ledger_sum_dual_variables(
    bench: &[u64; WORDS],
    unit: u8,
    sum: &mut u64,
) -> u8
    ensures { (result, sum.new) ≡ worded signed_word (read_words bench.now (sum_read (view bench.now) unit)) }
{
    dual_ledger::open_reads::dual_ledger_sum_dual_variables(bench, unit, sum)
}

#[unsafe(no_mangle)]
pub extern "C" fn dual_ledger_sum_grow_speed(bench: &[u64; WORDS], unit: u8, speed: &mut u64) -> u8
    ensures { (result, speed.new) ≡ worded signed_word (read_words bench.now (speed_read (view bench.now) unit)) }
{
    dual_ledger::open_reads::dual_ledger_sum_grow_speed(bench, unit, speed)
}

#[unsafe(no_mangle)]
pub extern "C" fn dual_ledger_nodes_count(bench: &[u64; WORDS], unit: u8, count: &mut u64) -> u8
    ensures { (result, count.new) ≡ read_words bench.now (count_read (view bench.now) unit) }
{
    dual_ledger::open_reads::dual_ledger_nodes_count(bench, unit, count)
}

#[unsafe(no_mangle)]
pub extern "C" fn dual_ledger_get_node(
    bench: &[u64; WORDS],
    unit: u8,
    index: u32,
    node: &mut u64,
) -> u8
    ensures { (result, node.new) ≡ indexed (read_words bench.now (index_read (view bench.now) unit index)) }
{
    dual_ledger::open_reads::dual_ledger_get_node(bench, unit, index, node)
}

#[unsafe(no_mangle)]
pub extern "C" fn dual_ledger_check_ptr_belonging(
    bench: &[u64; WORDS],
    unit: u8,
    node: u64,
    inside: &mut u64,
) -> u8
    ensures { (result, inside.new) ≡ worded flag_word (read_words bench.now (belongs_read (view bench.now) unit (hand_given node))) }
{
    dual_ledger::open_reads::dual_ledger_check_ptr_belonging(bench, unit, node, inside)
}

#[unsafe(no_mangle)]
pub extern "C" fn dual_ledger_get_dual_variable(
    bench: &[u64; WORDS],
    node: u64,
    value: &mut u64,
) -> u8
    ensures { (result, value.new) ≡ worded signed_word (read_words bench.now (value_read (view bench.now) (hand_given node))) }
{
    dual_ledger::open_reads::dual_ledger_get_dual_variable(bench, node, value)
}

#[unsafe(no_mangle)]
pub extern "C" fn dual_ledger_get_ancestor_blossom(
    bench: &[u64; WORDS],
    node: u64,
    ancestor: &mut u64,
    links: &mut u64,
) -> u8
    ensures { (result, (ancestor.new, links.new)) ≡ worded outer_words (read_words bench.now (outer_read (view bench.now) (hand_given node))) }
{
    dual_ledger::open_reads::dual_ledger_get_ancestor_blossom(bench, node, ancestor, links)
}

#[unsafe(no_mangle)]
pub extern "C" fn dual_ledger_get_secondary_ancestor_blossom(
    bench: &[u64; WORDS],
    node: u64,
    second: &mut u64,
) -> u8
    ensures { (result, second.new) ≡ worded node_word (read_words bench.now (below_read (view bench.now) (hand_given node))) }
{
    dual_ledger::open_reads::dual_ledger_get_secondary_ancestor_blossom(bench, node, second)
}

#[unsafe(no_mangle)]
pub extern "C" fn dual_ledger_get_representative_vertex(
    bench: &[u64; WORDS],
    node: u64,
    vertex: &mut u32,
) -> u8
    ensures { (result, vertex.new) ≡ read_words bench.now (first_read (view bench.now) (hand_given node)) }
{
    dual_ledger::open_reads::dual_ledger_get_representative_vertex(bench, node, vertex)
}

#[unsafe(no_mangle)]
pub extern "C" fn dual_ledger_get_all_vertices(
    bench: &[u64; WORDS],
    node: u64,
    out: &mut [u32],
    count: &mut u64,
) -> u8
    ensures { (result, (count.new, out.new)) ≡ read_words bench.now (vertices_read (view bench.now) (hand_given node) out.old) }
{
    dual_ledger::open_reads::dual_ledger_get_all_vertices(bench, node, out, count)
}

#[unsafe(no_mangle)]
pub extern "C" fn dual_ledger_sanity_check(
    bench: &[u64; WORDS],
    unit: u8,
    verdict: &mut u64,
    index: &mut u64,
) -> u8
    ensures { (result, (verdict.new, index.new)) ≡ read_words bench.now (check_read (view bench.now) unit) }
{
    dual_ledger::open_reads::dual_ledger_sanity_check(bench, unit, verdict, index)
}

#[unsafe(no_mangle)]
pub extern "C" fn dual_ledger_strict_check(
    bench: &[u64; WORDS],
    unit: u8,
    verdict: &mut u64,
    index: &mut u64,
) -> u8
    ensures { (result, (verdict.new, index.new)) ≡ read_words bench.now (strict_read (view bench.now) unit) }
{
    dual_ledger::open_reads::dual_ledger_strict_check(bench, unit, verdict, index)
}
