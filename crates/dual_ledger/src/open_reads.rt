// The reads and checks on any words: BROKEN (2) where they hold no sound bench; else a number, and values as words, 0 or none where refused. A signed value
// is the word of the same bits. None changes the bench. Assumes nothing.
ghost use Rattle.std.specs.Prelude.{◌≡◌};
ghost use Rattle.bench_views.specs.Given.{hand_given};
ghost use Rattle.bench_views.specs.View.{view};
ghost use Rattle.link_answers.specs.Forms.{node_word, indexed, flag_word, signed_word, outer_words, worded};
ghost use Rattle.sound_lent.specs.Verdict.{read_words};
ghost use Rattle.ledger_spec.specs.Answers.{sum_read, speed_read, count_read, index_read, belongs_read, value_read, outer_read, below_read, first_read, vertices_read, check_read, strict_read};

use bench_words::WORDS;
use kinds::NodeIndex;

pub fn dual_ledger_sum_dual_variables(bench: &[u64; WORDS], unit: u8, sum: &mut u64) -> u8
    ensures { (result, sum.new) ≡ worded signed_word (read_words bench.now (sum_read (view bench.now) unit)) }
{
    let a = read_any::sum_dual_variables(bench, unit);
    *sum = link_answers::signed_word(a.weight);
    a.number
}

pub fn dual_ledger_sum_grow_speed(bench: &[u64; WORDS], unit: u8, speed: &mut u64) -> u8
    ensures { (result, speed.new) ≡ worded signed_word (read_words bench.now (speed_read (view bench.now) unit)) }
{
    let a = read_any::sum_grow_speed(bench, unit);
    *speed = link_answers::signed_word(a.weight);
    a.number
}

pub fn dual_ledger_nodes_count(bench: &[u64; WORDS], unit: u8, count: &mut u64) -> u8
    ensures { (result, count.new) ≡ read_words bench.now (count_read (view bench.now) unit) }
{
    let a = read_any::nodes_count(bench, unit);
    *count = a.count;
    a.number
}

pub fn dual_ledger_get_node(bench: &[u64; WORDS], unit: u8, index: u32, node: &mut u64) -> u8
    ensures { (result, node.new) ≡ indexed (read_words bench.now (index_read (view bench.now) unit index)) }
{
    let a = read_any::get_node(bench, unit, NodeIndex(index));
    let found = a.node;
    *node = link_answers::indexed_word(a.number, found);
    a.number
}

pub fn dual_ledger_check_ptr_belonging(
    bench: &[u64; WORDS],
    unit: u8,
    node: u64,
    inside: &mut u64,
) -> u8
    ensures { (result, inside.new) ≡ worded flag_word (read_words bench.now (belongs_read (view bench.now) unit (hand_given node))) }
{
    let h = link_answers::hand(node);
    let a = read_any::check_ptr_belonging(bench, unit, h);
    *inside = link_answers::flag_word(a.inside);
    a.number
}

pub fn dual_ledger_get_dual_variable(bench: &[u64; WORDS], node: u64, value: &mut u64) -> u8
    ensures { (result, value.new) ≡ worded signed_word (read_words bench.now (value_read (view bench.now) (hand_given node))) }
{
    let h = link_answers::hand(node);
    let a = read_any::get_dual_variable(bench, h);
    *value = link_answers::signed_word(a.weight);
    a.number
}

pub fn dual_ledger_get_ancestor_blossom(
    bench: &[u64; WORDS],
    node: u64,
    ancestor: &mut u64,
    links: &mut u64,
) -> u8
    ensures { (result, (ancestor.new, links.new)) ≡ worded outer_words (read_words bench.now (outer_read (view bench.now) (hand_given node))) }
{
    let h = link_answers::hand(node);
    let a = read_any::get_ancestor_blossom(bench, h);
    let outer = a.node;
    *ancestor = link_answers::node_word(outer);
    *links = a.links;
    a.number
}

pub fn dual_ledger_get_secondary_ancestor_blossom(
    bench: &[u64; WORDS],
    node: u64,
    second: &mut u64,
) -> u8
    ensures { (result, second.new) ≡ worded node_word (read_words bench.now (below_read (view bench.now) (hand_given node))) }
{
    let h = link_answers::hand(node);
    let a = read_any::get_secondary_ancestor_blossom(bench, h);
    let under = a.node;
    *second = link_answers::node_word(under);
    a.number
}

pub fn dual_ledger_get_representative_vertex(
    bench: &[u64; WORDS],
    node: u64,
    vertex: &mut u32,
) -> u8
    ensures { (result, vertex.new) ≡ read_words bench.now (first_read (view bench.now) (hand_given node)) }
{
    let h = link_answers::hand(node);
    let a = read_any::get_representative_vertex(bench, h);
    *vertex = a.vertex.0;
    a.number
}

pub fn dual_ledger_get_all_vertices(
    bench: &[u64; WORDS],
    node: u64,
    out: &mut [u32],
    count: &mut u64,
) -> u8
    ensures { (result, (count.new, out.new)) ≡ read_words bench.now (vertices_read (view bench.now) (hand_given node) out.old) }
{
    let h = link_answers::hand(node);
    let a = read_any::get_all_vertices(bench, h, out);
    *count = a.count;
    a.number
}

pub fn dual_ledger_sanity_check(
    bench: &[u64; WORDS],
    unit: u8,
    verdict: &mut u64,
    index: &mut u64,
) -> u8
    ensures { (result, (verdict.new, index.new)) ≡ read_words bench.now (check_read (view bench.now) unit) }
{
    let a = check_any::sanity_check(bench, unit);
    *verdict = a.verdict as u64;
    *index = a.index.0 as u64;
    a.number
}

pub fn dual_ledger_strict_check(
    bench: &[u64; WORDS],
    unit: u8,
    verdict: &mut u64,
    index: &mut u64,
) -> u8
    ensures { (result, (verdict.new, index.new)) ≡ read_words bench.now (strict_read (view bench.now) unit) }
{
    let a = check_any::strict_check(bench, unit);
    *verdict = a.verdict as u64;
    *index = a.index.0 as u64;
    a.number
}
