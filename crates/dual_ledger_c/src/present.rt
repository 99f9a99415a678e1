// The exports of dual_ledger::present, the reads of present nodes: each has the clauses of the function that it calls. Assumes nothing.
ghost use Rattle.std.specs.Prelude.{◌≡◌};
ghost use Rattle.bench_views.specs.Fit.{SoundWords};
ghost use Rattle.bench_views.specs.View.{view};
ghost use Rattle.sound_lent.specs.Verdict.{read_words};
ghost use Rattle.read_present.specs.Present.{present_of, next_of, present_read, next_read};
ghost use Rattle.dual_ledger.specs.Nexts.{next_words};

use bench_words::WORDS;

#[unsafe(no_mangle)]
pub extern "C" fn dual_ledger_present_count(bench: &[u64; WORDS], unit: u8, count: &mut u64) -> u8
    ensures { (result, count.new) ≡ read_words bench.now (present_read (view bench.now) unit) }
{
    dual_ledger::present::dual_ledger_present_count(bench, unit, count)
}

#[unsafe(no_mangle)]
pub extern "C" fn dual_ledger_next_present(
    bench: &[u64; WORDS],
    unit: u8,
    index: u32,
    next: &mut u32,
    node: &mut u64,
) -> u8
    ensures { (result, (next.new, node.new)) ≡ next_words (read_words bench.now (next_read (view bench.now) unit index)) }
{
    dual_ledger::present::dual_ledger_next_present(bench, unit, index, next, node)
}

#[unsafe(no_mangle)]
pub extern "C" fn dual_ledger_trusted_present_count(
    bench: &[u64; WORDS],
    unit: u8,
    count: &mut u64,
) -> u8
    requires { SoundWords bench.now }
    ensures { (result, count.new) ≡ present_of (view bench.now) unit }
{
    dual_ledger::present::dual_ledger_trusted_present_count(bench, unit, count)
}

#[unsafe(no_mangle)]
pub extern "C" fn dual_ledger_trusted_next_present(
    bench: &[u64; WORDS],
    unit: u8,
    index: u32,
    next: &mut u32,
    node: &mut u64,
) -> u8
    requires { SoundWords bench.now }
    ensures { (result, (next.new, node.new)) ≡ next_words (next_of (view bench.now) unit index) }
{
    dual_ledger::present::dual_ledger_trusted_next_present(bench, unit, index, next, node)
}
