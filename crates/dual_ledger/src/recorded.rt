// Growing against a recording: groups as words, one after the other; the lengths of the steps at the front of the lent slice. BROKEN (2) first, for the bench;
// SMALL (19) last: refused, neither bench nor slice moves, and no group is taken. Assumes nothing.
ghost use Rattle.bench_views.specs.Fit.{SoundWords};
ghost use Rattle.recorded_sound.specs.Answers.{RecordedAs};
ghost use Rattle.recorded_any.specs.Any.{RecordedAny};

use bench_words::WORDS;

pub fn dual_ledger_grow_recorded(
    bench: &mut [u64; WORDS],
    unit: u8,
    length: i64,
    groups: &[u64],
    lengths: &mut [u64],
    taken: &mut usize,
) -> u8
    ensures { RecordedAny bench.old unit length groups.now lengths.old (record { number = result; taken = taken.new }) bench.new lengths.new }
{
    let a = recorded_any::grow_recorded(bench, unit, length, groups, lengths);
    *taken = a.taken;
    a.number
}

pub fn dual_ledger_trusted_grow_recorded(
    bench: &mut [u64; WORDS],
    unit: u8,
    length: i64,
    groups: &[u64],
    lengths: &mut [u64],
    taken: &mut usize,
) -> u8
    requires { SoundWords bench.old }
    ensures { RecordedAs bench.old unit length groups.now lengths.old (record { number = result; taken = taken.new }) bench.new lengths.new }
{
    let a = recorded_sound::grow_recorded(bench, unit, length, groups, lengths);
    *taken = a.taken;
    a.number
}
