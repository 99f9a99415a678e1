#![tactic(auto)]
// A run over a whole file of records: every operation in turn, as the single calls answer it, four signed numbers each into a lent slice. FILE comes first,
// then BROKEN, once, then SMALL; a run that is refused changes neither bench nor slice, an operation that is refused does not end it. Assumes nothing.
ghost use Rattle.std.specs.Prelude.{◌≡◌, ◌+◌, ◌*◌, ◌≤◌, length};
ghost use Rattle.std.proofs.lemmas.List.Edits.{sets};
ghost use Rattle.bench_views.specs.Fit.{SoundWords};
ghost use Rattle.record_runs.specs.Runs.{four_of, Listing, Ready, Answers, Ran as «As_run», RanAny};

use bench_serials::HINTS;
use bench_words::WORDS;
use kinds::numbers;
use record_calls::{MEMBERS, TOUCHING};
use text_numbers::Reply;

// A run's number, and how many operations it answered.
#[derive(Clone, Copy)]
pub struct Ran {
    pub number: u8,
    pub count: usize,
}

fn refused(number: u8) -> Ran
    ensures { result ≡ record { number = number; count = 0 } }
{
    Ran { number, count: 0 }
}

// An operation's four numbers, at a place.
fn put(answers: &mut [i64], at: usize, r: Reply)
    requires { at + 4 ≤ length answers.old }
    ensures { answers.new ≡ sets answers.old at (four_of r) }
{
    let speed = r.speed;
    let sum = r.sum;
    answers[at] = r.number as i64;
    answers[at + 1] = r.serial as i64;
    answers[at + 2] = speed;
    answers[at + 3] = sum;
}

// The operations of a file that is whole, with its list at a place and room for every answer. Hints start empty and are filled by what is met.
fn go(b: &mut [u64; WORDS], file: &[u8], list: usize, count: usize, answers: &mut [i64])
    requires { SoundWords b.old × Ready file.now list count (length answers.old) }
    ensures { Answers b.old file.now answers.old b.new answers.new }
{
    let mut members: [u64; MEMBERS] = [0; MEMBERS];
    let mut touching: [u64; TOUCHING] = [0; TOUCHING];
    let mut hints: [u16; HINTS] = [0; HINTS];
    for i in 0..count {
        let p = record_places::place_in(file, list, i);
        let r = record_calls::perform(b, file, p, &mut members, &mut touching, &mut hints);
        put(answers, 4 * i, r);
    }
}

// A file that is whole, with its list at a place, on words that hold a sound bench.
fn run_whole(
    b: &mut [u64; WORDS],
    file: &[u8],
    list: usize,
    count: usize,
    answers: &mut [i64],
) -> Ran
    requires { SoundWords b.old × Listing file.now list count }
    ensures { «As_run» b.old file.now answers.old result b.new answers.new }
{
    if answers.len() / 4 < count {
        return refused(numbers::SMALL);
    }
    go(b, file, list, count, answers);
    Ran { number: 0, count }
}

// On words that hold a sound bench.
pub fn run_sound(b: &mut [u64; WORDS], file: &[u8], answers: &mut [i64]) -> Ran
    requires { SoundWords b.old }
    ensures { «As_run» b.old file.now answers.old result b.new answers.new }
{
    let scanned = record_files::scan(file);
    if !scanned.whole {
        return refused(numbers::FILE);
    }
    run_whole(b, file, scanned.start, scanned.count, answers)
}

// On any words.
pub fn run(b: &mut [u64; WORDS], file: &[u8], answers: &mut [i64]) -> Ran
    ensures { RanAny b.old file.now answers.old result b.new answers.new }
{
    let scanned = record_files::scan(file);
    if !scanned.whole {
        return refused(numbers::FILE);
    }
    if !sound_lent::is_bench(b) {
        return refused(numbers::BROKEN);
    }
    run_whole(b, file, scanned.start, scanned.count, answers)
}
