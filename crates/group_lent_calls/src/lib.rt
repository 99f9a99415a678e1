#![tactic(auto)]
// The calls on groups over lent words that hold a sound group, and for add and extend a sound bench: nothing is tested but what the manual refuses.
// Assumes nothing.
ghost use Rattle.std.specs.Prelude.{◌≡◌, true};
ghost use Rattle.bench_views.specs.Fit.{SoundWords};
ghost use Rattle.group_lent.specs.Forms.{is_form, five_at};
ghost use Rattle.group_lent.specs.Place.{SoundGroup};
ghost use Rattle.group_lent_calls.specs.Calls.{Peeked, Popped, Spared, Added, Extended};

use bench_words::WORDS;
use group_lent::{GROUP, OBSTACLE};
use kinds::numbers;

// The obstacle goes into o, as five zeros where there is none.
pub fn peek(w: &[u64; GROUP], o: &mut [u64; OBSTACLE]) -> u8
    requires { SoundGroup w.now }
    ensures { Peeked w.now result o.new }
{
    let top = group_lent_takes::peek(w);
    let f = top.obstacle;
    group_lent::put_in(o, f);
    top.number
}

pub fn pop(w: &mut [u64; GROUP], o: &mut [u64; OBSTACLE]) -> u8
    requires { SoundGroup w.old }
    ensures { Popped w.old result o.new w.new }
{
    let top = group_lent_takes::pop(w);
    let f = top.obstacle;
    group_lent::put_in(o, f);
    top.number
}

// A stop goes only where the list is empty.
pub fn pop_sparing_stops(w: &mut [u64; GROUP], o: &mut [u64; OBSTACLE]) -> u8
    requires { SoundGroup w.old }
    ensures { Spared w.old result o.new w.new }
{
    let top = group_lent_spares::pop_sparing_stops(w);
    let f = top.obstacle;
    group_lent::put_in(o, f);
    top.number
}

// A growth names no node. STALE (8) where a node that the obstacle names is not present.
pub fn add(b: &[u64; WORDS], w: &mut [u64; GROUP], o: &[u64; OBSTACLE]) -> u8
    requires sound_words { SoundWords b.now × SoundGroup w.old }
    requires o_value { is_form (five_at o.now 0) ≡ true }
    ensures { Added b.now w.old (five_at o.now 0) result w.new }
{
    if o[0] == 1 {
        let g = group_lent::five_in(o);
        return group_lent_takes::add_growth(w, g);
    }
    let f = group_lent::five_in(o);
    if group_lent_nodes::names_gone(b, f) {
        return numbers::STALE;
    }
    let v = group_lent_nodes::vertex_of(b, f);
    group_lent_stops::add(w, f, v)
}

// STALE where a node that the other group names is not present; what the own group names is not asked.
pub fn extend(b: &[u64; WORDS], w: &mut [u64; GROUP], other: &[u64; GROUP]) -> u8
    requires { SoundWords b.now × (SoundGroup w.old × SoundGroup other.now) }
    ensures { Extended b.now w.old other.now result w.new }
{
    if group_lent_nodes::group_gone(b, other) {
        return numbers::STALE;
    }
    group_lent_extends::extend(w, other)
}
