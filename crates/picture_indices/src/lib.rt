#![tactic(auto)]
// The index of each slot of a tree by its position, listed once, so that a handle's index costs a step and no search. Everything here only reads the bench.
// Assumes nothing.
ghost use Rattle.check_places.specs.Places.{Places};
ghost use Rattle.picture_indices.specs.Indices.{Indices};

use bench_words::WORDS;

// From the last slot to the first; a slot of another tree has 0. The first `count` places are those of the tree's slots.
pub fn indices(b: &[u64; WORDS], unit: usize, places: &[usize; 512], count: usize) -> [u64; 512]
    requires { Places b.now unit places.now count }
    ensures { Indices b.now unit result }
{
    let mut index = [0u64; 512];
    for k in (0..count).rev() {
        let p = places[k];
        index[p] = k as u64;
    }
    index
}
