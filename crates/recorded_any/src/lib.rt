#![tactic(auto)]
// Growing against a recording, as a public call: any words may be lent as bench, and any as recording. The bench is tested once, before all else: words that
// hold no sound bench are BROKEN (2), and nothing changes; else the call on sound words answers. Assumes nothing.
ghost use Rattle.recorded_any.specs.Any.{RecordedAny};

use bench_words::WORDS;
use kinds::numbers;
use recorded_steps::Passed;

// Grows an interface by `length`, a group of the recording a step, and writes the lengths of the steps. Refused, bench and slice stay.
pub fn grow_recorded(
    b: &mut [u64; WORDS],
    unit: u8,
    length: i64,
    groups: &[u64],
    out: &mut [u64],
) -> Passed
    ensures { RecordedAny b.old unit length groups.now out.old result b.new out.new }
{
    if !sound_lent::is_bench(b) {
        return Passed {
            number: numbers::BROKEN,
            taken: 0,
        };
    }
    recorded_sound::grow_recorded(b, unit, length, groups, out)
}
