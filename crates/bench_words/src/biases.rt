// State and bias of a node by themselves: a growth of the plain engine reads and writes no more of it. Assumes nothing.
ghost use Rattle.std.specs.Prelude.{◌≡◌, ◌<◌};
ghost use Rattle.bench_words.specs.Store.{node_at, store_bias};

use crate::WORDS;
use kinds::GrowState;

pub fn load_state(b: &[u64; WORDS], k: usize) -> GrowState
    requires { k < 512 }
    ensures { result ≡ (node_at b.now k).state }
{
    let at = 128 + k * 12;
    crate::state_of(b[at + 3])
}

pub fn load_bias(b: &[u64; WORDS], k: usize) -> u64
    requires { k < 512 }
    ensures { result ≡ (node_at b.now k).bias }
{
    let at = 128 + k * 12;
    b[at + 9]
}

pub fn store_bias(b: &mut [u64; WORDS], k: usize, bias: u64)
    requires { k < 512 }
    ensures { b.new ≡ store_bias b.old k bias }
{
    let at = 128 + k * 12;
    b[at + 9] = bias;
}
