// A run over a file of byte records: every operation as the single calls answer it, four signed numbers each at the front of the lent slice. FILE (23) first,
// then BROKEN (2), once, then SMALL (19): refused, neither bench nor slice moves, and the count is 0. Assumes nothing.
ghost use Rattle.bench_views.specs.Fit.{SoundWords};
ghost use Rattle.record_runs.specs.Runs.{Ran, RanAny};

use bench_words::WORDS;

pub fn dual_ledger_run_records(
    bench: &mut [u64; WORDS],
    file: &[u8],
    answers: &mut [i64],
    count: &mut usize,
) -> u8
    ensures { RanAny bench.old file.now answers.old (record { number = result; count = count.new }) bench.new answers.new }
{
    let a = record_runs::run(bench, file, answers);
    *count = a.count;
    a.number
}

pub fn dual_ledger_trusted_run_records(
    bench: &mut [u64; WORDS],
    file: &[u8],
    answers: &mut [i64],
    count: &mut usize,
) -> u8
    requires { SoundWords bench.old }
    ensures { Ran bench.old file.now answers.old (record { number = result; count = count.new }) bench.new answers.new }
{
    let a = record_runs::run_sound(bench, file, answers);
    *count = a.count;
    a.number
}
