#![tactic(auto)]
// The test that every public call and read makes once: whether the words that were lent hold a sound bench. Any words may be lent. Assumes nothing.
ghost use Rattle.sound_lent.specs.Verdict.{Verdict};

use bench_words::WORDS;

// No is BROKEN (2), and nothing more is done with the words.
pub fn is_bench(b: &[u64; WORDS]) -> bool
    ensures { Verdict b.now result }
{
    bench_words::full(b);
    sound_bench::is_sound(b)
}
