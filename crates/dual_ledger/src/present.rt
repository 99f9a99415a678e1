// The reads of present nodes, on any words and on words that hold a sound bench: a number, and values as words, 0 where refused. None changes the bench.
// Assumes nothing.
ghost use Rattle.std.specs.Prelude.{◌≡◌};
ghost use Rattle.bench_views.specs.Fit.{SoundWords};
ghost use Rattle.bench_views.specs.View.{view};
ghost use Rattle.sound_lent.specs.Verdict.{read_words};
ghost use Rattle.read_present.specs.Present.{present_of, next_of, present_read, next_read};
ghost use Rattle.dual_ledger.specs.Nexts.{next_words};

use bench_words::WORDS;
use kinds::NodeIndex;

pub fn dual_ledger_present_count(bench: &[u64; WORDS], unit: u8, count: &mut u64) -> u8
    ensures { (result, count.new) ≡ read_words bench.now (present_read (view bench.now) unit) }
{
    let a = read_present_any::present_count(bench, unit);
    *count = a.count;
    a.number
}

pub fn dual_ledger_next_present(
    bench: &[u64; WORDS],
    unit: u8,
    index: u32,
    next: &mut u32,
    node: &mut u64,
) -> u8
    ensures { (result, (next.new, node.new)) ≡ next_words (read_words bench.now (next_read (view bench.now) unit index)) }
{
    let a = read_present_any::next_present(bench, unit, NodeIndex(index));
    let found = a.node;
    *node = link_answers::indexed_word(a.number, found);
    *next = a.index.0;
    a.number
}

pub fn dual_ledger_trusted_present_count(bench: &[u64; WORDS], unit: u8, count: &mut u64) -> u8
    requires { SoundWords bench.now }
    ensures { (result, count.new) ≡ present_of (view bench.now) unit }
{
    let a = read_present::present_count(bench, unit);
    *count = a.count;
    a.number
}

pub fn dual_ledger_trusted_next_present(
    bench: &[u64; WORDS],
    unit: u8,
    index: u32,
    next: &mut u32,
    node: &mut u64,
) -> u8
    requires { SoundWords bench.now }
    ensures { (result, (next.new, node.new)) ≡ next_words (next_of (view bench.now) unit index) }
{
    let a = read_present::next_present(bench, unit, NodeIndex(index));
    let found = a.node;
    *node = link_answers::indexed_word(a.number, found);
    *next = a.index.0;
    a.number
}
