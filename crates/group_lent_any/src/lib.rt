#![tactic(auto)]
// Every call on groups over any words (include/dual_ledger.h): tested once, then the call on sound words. BROKEN (2) where they hold no sound group, no sound
// bench or no obstacle; refused, every word of the group stays. Assumes nothing.
ghost use Rattle.std.specs.Prelude.{◌≡◌, false};
ghost use Rattle.ledger_spec.specs.GroupCalls.{is_empty, is_active, growth_of};
ghost use Rattle.groups.specs.Shown.{shown_told, shown_asked};
ghost use Rattle.group_lent_any.specs.Any.{Judged, Ready, asked_of, no_obstacle, PeekedAny, PoppedAny, SparedAny, AddedAny, ExtendedAny};

use bench_words::WORDS;
use group_lent::{GROUP, OBSTACLE};
use groups::{Asked, Told};
use kinds::numbers;

// Whether the words hold a sound group.
pub fn is_group(w: &[u64; GROUP]) -> bool
    ensures { Judged w.now result }
{
    group_lent::all_words(w);
    group_lent_sound::is_sound(w)
}

pub fn is_empty(w: &[u64; GROUP]) -> Told
    ensures { shown_told result ≡ asked_of w.now false is_empty }
{
    if !is_group(w) {
        let number = numbers::BROKEN;
        return Told { number, yes: false };
    }
    let yes = group_lent_takes::is_empty(w);
    Told { number: 0, yes }
}

pub fn is_active(w: &[u64; GROUP]) -> Told
    ensures { shown_told result ≡ asked_of w.now false is_active }
{
    if !is_group(w) {
        let number = numbers::BROKEN;
        return Told { number, yes: false };
    }
    let yes = group_lent_takes::is_active(w);
    Told { number: 0, yes }
}

pub fn get_none_zero_growth(w: &[u64; GROUP]) -> Asked
    ensures { shown_asked result ≡ asked_of w.now None growth_of }
{
    if !is_group(w) {
        return Asked {
            number: numbers::BROKEN,
            length: None,
        };
    }
    group_lent_takes::get_none_zero_growth(w)
}

// No group to take from: BROKEN, and no obstacle.
fn broken(o: &mut [u64; OBSTACLE]) -> u8
    ensures { (result ≡ 2) × (o.new ≡ no_obstacle) }
{
    group_lent::put_in(o, group_lent::no_obstacle());
    numbers::BROKEN
}

pub fn peek(w: &[u64; GROUP], o: &mut [u64; OBSTACLE]) -> u8
    ensures { PeekedAny w.now result o.new }
{
    if !is_group(w) {
        return broken(o);
    }
    group_lent_calls::peek(w, o)
}

pub fn pop(w: &mut [u64; GROUP], o: &mut [u64; OBSTACLE]) -> u8
    ensures { PoppedAny w.old result o.new w.new }
{
    if !is_group(w) {
        return broken(o);
    }
    group_lent_calls::pop(w, o)
}

// A stop goes only where the list is empty.
pub fn pop_sparing_stops(w: &mut [u64; GROUP], o: &mut [u64; OBSTACLE]) -> u8
    ensures { SparedAny w.old result o.new w.new }
{
    if !is_group(w) {
        return broken(o);
    }
    group_lent_calls::pop_sparing_stops(w, o)
}

// Whether the words hold a sound bench and a sound group: else BROKEN.
fn is_ready(b: &[u64; WORDS], w: &[u64; GROUP]) -> bool
    ensures { Ready b.now w.now result }
{
    if !sound_lent::is_bench(b) {
        return false;
    }
    is_group(w)
}

// BROKEN too where the obstacle's words are no obstacle's.
pub fn add(b: &[u64; WORDS], w: &mut [u64; GROUP], o: &[u64; OBSTACLE]) -> u8
    ensures { AddedAny b.now w.old o.now result w.new }
{
    if !is_ready(b, w) {
        return numbers::BROKEN;
    }
    let f = group_lent::five_in(o);
    if !group_lent::is_form(f) {
        return numbers::BROKEN;
    }
    group_lent_calls::add(b, w, o)
}

// BROKEN too where the other group's words are no sound group's.
pub fn extend(b: &[u64; WORDS], w: &mut [u64; GROUP], other: &[u64; GROUP]) -> u8
    ensures { ExtendedAny b.now w.old other.now result w.new }
{
    if !is_ready(b, w) {
        return numbers::BROKEN;
    }
    if !is_group(other) {
        return numbers::BROKEN;
    }
    group_lent_calls::extend(b, w, other)
}
