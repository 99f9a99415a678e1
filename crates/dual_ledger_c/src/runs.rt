// The exports of dual_ledger::runs, a run over a file of byte records: each has the clauses of the function that it calls. Assumes nothing.
ghost use Rattle.bench_views.specs.Fit.{SoundWords};
ghost use Rattle.record_runs.specs.Runs.{Ran, RanAny};

use bench_words::WORDS;

#[unsafe(no_mangle)]
pub extern "C" fn dual_ledger_run_records(
    bench: &mut [u64; WORDS],
    file: &[u8],
    answers: &mut [i64],
    count: &mut usize,
) -> u8
    ensures { RanAny bench.old file.now answers.old (record { number = result; count = count.new }) bench.new answers.new }
{
    dual_ledger::runs::dual_ledger_run_records(bench, file, answers, count)
}

#[unsafe(no_mangle)]
pub extern "C" fn dual_ledger_trusted_run_records(
    bench: &mut [u64; WORDS],
    file: &[u8],
    answers: &mut [i64],
    count: &mut usize,
) -> u8
    requires { SoundWords bench.old }
    ensures { Ran bench.old file.now answers.old (record { number = result; count = count.new }) bench.new answers.new }
{
    dual_ledger::runs::dual_ledger_trusted_run_records(bench, file, answers, count)
}
