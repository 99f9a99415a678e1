// The exports of dual_ledger::recorded, growing against a recording: each has the clauses of the function that it calls. Assumes nothing.
ghost use Rattle.bench_views.specs.Fit.{SoundWords};
ghost use Rattle.recorded_sound.specs.Answers.{RecordedAs};
ghost use Rattle.recorded_any.specs.Any.{RecordedAny};

use bench_words::WORDS;

#[unsafe(no_mangle)]
pub extern "C" fn dual_ledger_grow_recorded(
    bench: &mut [u64; WORDS],
    unit: u8,
    length: i64,
    groups: &[u64],
    lengths: &mut [u64],
    taken: &mut usize,
) -> u8
    ensures { RecordedAny bench.old unit length groups.now lengths.old (record { number = result; taken = taken.new }) bench.new lengths.new }
{
    dual_ledger::recorded::dual_ledger_grow_recorded(bench, unit, length, groups, lengths, taken)
}

#[unsafe(no_mangle)]
pub extern "C" fn dual_ledger_trusted_grow_recorded(
    bench: &mut [u64; WORDS],
    unit: u8,
    length: i64,
    groups: &[u64],
    lengths: &mut [u64],
    taken: &mut usize,
) -> u8
    requires { SoundWords bench.old }
    ensures { RecordedAs bench.old unit length groups.now lengths.old (record { number = result; taken = taken.new }) bench.new lengths.new }
{
    dual_ledger::recorded::dual_ledger_trusted_grow_recorded(
        bench, unit, length, groups, lengths, taken,
    )
}
