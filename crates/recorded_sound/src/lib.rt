#![tactic(auto)]
// Growing against a recording, on words that hold a sound bench: every step is tested first, and the bench grows once. Assumes nothing.
ghost use Rattle.std.specs.Prelude.{◌≡◌};
ghost use Rattle.bench_views.specs.Fit.{Fit, SoundWords};
ghost use Rattle.recorded_sound.specs.Answers.{JudgedAs, RecordedAs};

use bench_words::{Interface, WORDS};
use kinds::numbers;
use recorded_steps::Passed;

fn refused(number: u8) -> Passed
    ensures { (result.number ≡ number) × (result.taken ≡ 0) }
{
    Passed { number, taken: 0 }
}

// UNIT, CHILD, a negative length; then position by position; SMALL last, where there is no room for one length a group.
fn judge(b: &[u64; WORDS], unit: u8, length: i64, groups: &[u64], room: usize) -> Passed
    requires { Fit b.now }
    ensures { JudgedAs b.now unit length groups.now room result }
{
    let number = read_sound::unit_number(b, unit);
    if number != 0 {
        return refused(number);
    }
    if length < 0 {
        return refused(numbers::LENGTH);
    }
    let f = bench_words::load_interface(b, unit as usize);
    let reach = Interface::PROGRESS - f.progress;
    let floor = bench_floors::least_shrinking(b, unit as usize);
    let p = recorded_steps::pass(groups, length as u64, reach, floor);
    if p.number != 0 {
        return p;
    }
    if room < recorded_groups::count(groups) {
        return refused(numbers::SMALL);
    }
    p
}

// Grows an interface by `length`, a group of the recording a step, and writes the lengths of the steps. Refused, bench and slice stay.
pub fn grow_recorded(
    b: &mut [u64; WORDS],
    unit: u8,
    length: i64,
    groups: &[u64],
    out: &mut [u64],
) -> Passed
    requires { SoundWords b.old }
    ensures { RecordedAs b.old unit length groups.now out.old result b.new out.new }
{
    let p = judge(b, unit, length, groups, out.len());
    if p.number != 0 {
        return p;
    }
    call_sound::grow(b, unit, length);
    recorded_steps::put_lengths(groups, length as u64, out);
    p
}
