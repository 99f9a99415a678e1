#![tactic(auto)]
// Whether words are the encoding of a bench that keeps every rule of "A sound bench": BROKEN is exactly where they are not. Any words whatever
// may be lent; nothing is changed. The cost goes with the slots used. Assumes nothing.
ghost use Rattle.std.specs.Prelude.{◌≡◌};
ghost use Rattle.sound_bench.specs.Sound.{sound_words};

use bench_words::WORDS;
use kinds::Serial;

pub fn is_sound(b: &[u64; WORDS]) -> bool
    ensures { result ≡ sound_words b.now }
{
    bench_words::full(b);
    let next = bench_words::load_next(b);
    if next == 0 {
        return false;
    }
    if Serial::PAST < next {
        return false;
    }
    if !sound_trees::are_trees(b) {
        return false;
    }
    if !sound_nodes::are_nodes(b) {
        return false;
    }
    if !sound_tops::are_tops(b) {
        return false;
    }
    if !sound_serials::are_different(b) {
        return false;
    }
    sound_floors::are_floors(b)
}
