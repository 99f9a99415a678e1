#![tactic(auto)]
// The pop that spares the stops, in place, over lent words that hold a sound group, and leaves them so: the last of the list goes, and a stop only where the
// list is empty. An obstacle is its five words. Assumes nothing.
ghost use Rattle.group_lent.specs.Place.{SoundGroup};
ghost use Rattle.group_lent_spares.specs.Spares.{Spared};

use group_lent::GROUP;
use group_lent_takes::Top;

// KIND (10) of a growth. Without a list it is the other pop; with one, only the list's count changes.
pub fn pop_sparing_stops(w: &mut [u64; GROUP]) -> Top
    requires { SoundGroup w.old }
    ensures { Spared w.old result w.new }
{
    let n = w[3];
    if (w[0] == 1) | (n == 0) {
        return group_lent_takes::pop(w);
    }
    let top = group_lent_takes::peek(w);
    w[3] = n - 1;
    top
}
