// The reads on words that hold a sound bench: a number, and values as words, 0 or none where refused. A signed
// value is the word of the same bits. None changes the bench. Assumes nothing.
ghost use Rattle.std.specs.Prelude.{◌≡◌};
ghost use Rattle.ledger_spec.specs.Reads.{sum_of, speed_of, count_of, handle_at_index, value_of, belongs};
ghost use Rattle.ledger_spec.specs.Walk.{outer_of, below_of, first_vertex, vertices_into};
ghost use Rattle.ledger_spec.specs.Check.{check_of, strict_of};
ghost use Rattle.bench_views.specs.Given.{hand_given};
ghost use Rattle.bench_views.specs.Fit.{SoundWords};
ghost use Rattle.bench_views.specs.View.{view};
ghost use Rattle.link_answers.specs.Forms.{node_word, indexed, flag_word, signed_word, outer_words, worded};

use bench_words::WORDS;
use kinds::NodeIndex;

pub fn dual_ledger_trusted_sum_dual_variables(bench: &[u64; WORDS], unit: u8, sum: &mut u64) -> u8
    requires { SoundWords bench.now }
    ensures { (result, sum.new) ≡ worded signed_word (sum_of (view bench.now) unit) }
{
    let a = read_sound::sum_dual_variables(bench, unit);
    *sum = link_answers::signed_word(a.weight);
    a.number
}

pub fn dual_ledger_trusted_sum_grow_speed(bench: &[u64; WORDS], unit: u8, speed: &mut u64) -> u8
    requires { SoundWords bench.now }
    ensures { (result, speed.new) ≡ worded signed_word (speed_of (view bench.now) unit) }
{
    let a = read_sound::sum_grow_speed(bench, unit);
    *speed = link_answers::signed_word(a.weight);
    a.number
}

pub fn dual_ledger_trusted_nodes_count(bench: &[u64; WORDS], unit: u8, count: &mut u64) -> u8
    requires { SoundWords bench.now }
    ensures { (result, count.new) ≡ count_of (view bench.now) unit }
{
    let a = read_sound::nodes_count(bench, unit);
    *count = a.count;
    a.number
}

pub fn dual_ledger_trusted_get_node(
    bench: &[u64; WORDS],
    unit: u8,
    index: u32,
    node: &mut u64,
) -> u8
    requires { SoundWords bench.now }
    ensures { (result, node.new) ≡ indexed (handle_at_index (view bench.now) unit index) }
{
    let a = read_sound::get_node(bench, unit, NodeIndex(index));
    let found = a.node;
    *node = link_answers::indexed_word(a.number, found);
    a.number
}

pub fn dual_ledger_trusted_check_ptr_belonging(
    bench: &[u64; WORDS],
    unit: u8,
    node: u64,
    inside: &mut u64,
) -> u8
    requires { SoundWords bench.now }
    ensures { (result, inside.new) ≡ worded flag_word (belongs (view bench.now) unit (hand_given node)) }
{
    let h = link_answers::hand(node);
    let a = read_sound::check_ptr_belonging(bench, unit, h);
    *inside = link_answers::flag_word(a.inside);
    a.number
}

pub fn dual_ledger_trusted_get_dual_variable(bench: &[u64; WORDS], node: u64, value: &mut u64) -> u8
    requires { SoundWords bench.now }
    ensures { (result, value.new) ≡ worded signed_word (value_of (view bench.now) (hand_given node)) }
{
    let h = link_answers::hand(node);
    let a = read_sound::get_dual_variable(bench, h);
    *value = link_answers::signed_word(a.weight);
    a.number
}

pub fn dual_ledger_trusted_get_ancestor_blossom(
    bench: &[u64; WORDS],
    node: u64,
    ancestor: &mut u64,
    links: &mut u64,
) -> u8
    requires { SoundWords bench.now }
    ensures { (result, (ancestor.new, links.new)) ≡ worded outer_words (outer_of (view bench.now) (hand_given node)) }
{
    let h = link_answers::hand(node);
    let a = read_sound::get_ancestor_blossom(bench, h);
    let outer = a.node;
    *ancestor = link_answers::node_word(outer);
    *links = a.links;
    a.number
}

pub fn dual_ledger_trusted_get_secondary_ancestor_blossom(
    bench: &[u64; WORDS],
    node: u64,
    second: &mut u64,
) -> u8
    requires { SoundWords bench.now }
    ensures { (result, second.new) ≡ worded node_word (below_of (view bench.now) (hand_given node)) }
{
    let h = link_answers::hand(node);
    let a = read_sound::get_secondary_ancestor_blossom(bench, h);
    let under = a.node;
    *second = link_answers::node_word(under);
    a.number
}

pub fn dual_ledger_trusted_get_representative_vertex(
    bench: &[u64; WORDS],
    node: u64,
    vertex: &mut u32,
) -> u8
    requires { SoundWords bench.now }
    ensures { (result, vertex.new) ≡ first_vertex (view bench.now) (hand_given node) }
{
    let h = link_answers::hand(node);
    let a = read_sound::get_representative_vertex(bench, h);
    *vertex = a.vertex.0;
    a.number
}

pub fn dual_ledger_trusted_get_all_vertices(
    bench: &[u64; WORDS],
    node: u64,
    out: &mut [u32],
    count: &mut u64,
) -> u8
    requires { SoundWords bench.now }
    ensures { (result, (count.new, out.new)) ≡ vertices_into (view bench.now) (hand_given node) out.old }
{
    let h = link_answers::hand(node);
    let a = read_sound::get_all_vertices(bench, h, out);
    *count = a.count;
    a.number
}

pub fn dual_ledger_trusted_sanity_check(
    bench: &[u64; WORDS],
    unit: u8,
    verdict: &mut u64,
    index: &mut u64,
) -> u8
    requires { SoundWords bench.now }
    ensures { (result, (verdict.new, index.new)) ≡ check_of (view bench.now) unit }
{
    let a = check_sound::sanity_check(bench, unit);
    *verdict = a.verdict as u64;
    *index = a.index.0 as u64;
    a.number
}

pub fn dual_ledger_trusted_strict_check(
    bench: &[u64; WORDS],
    unit: u8,
    verdict: &mut u64,
    index: &mut u64,
) -> u8
    requires { SoundWords bench.now }
    ensures { (result, (verdict.new, index.new)) ≡ strict_of (view bench.now) unit }
{
    let a = check_sound::strict_check(bench, unit);
    *verdict = a.verdict as u64;
    *index = a.index.0 as u64;
    a.number
}
