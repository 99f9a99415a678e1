#![tactic(auto)]
// The public add and extend of obstacle groups over a lent bench, for any words, group and obstacle. BROKEN (2) where the words hold no sound bench or a
// group is unsound, then STALE (8), then ROOM (20), lowest first; refused, the very group comes back. The bench is only read. Assumes nothing.
mod presence;

ghost use Rattle.std.specs.Prelude.{◌≡◌};
ghost use Rattle.ledger_spec.specs.GroupCalls.{add, extend};
ghost use Rattle.bench_views.specs.View.{view};
ghost use Rattle.sound_lent.specs.Verdict.{asked};
ghost use Rattle.groups.specs.View.{group_of};
ghost use Rattle.group_extends.specs.Extends.{whole_of};
ghost use Rattle.group_calls.specs.Ready.{Ready};
ghost use Rattle.group_calls.specs.Whole.{whole};

use bench_words::WORDS;
use group_adds::Changed;
use groups::Group;
use kinds::{Obstacle, numbers};

// Whether the words hold a sound bench and the group is sound: else BROKEN.
fn is_ready(b: &[u64; WORDS], g: Group) -> bool
    ensures { Ready b.now (group_of g) result }
{
    sound_lent::is_bench(b) && groups::group_is_sound(g)
}

// The number, and the very group.
fn refused(number: u8, group: Group) -> Changed
    ensures { result ≡ record { number = number; group = group } }
{
    Changed { number, group }
}

// STALE where a node that the obstacle names is not present.
pub fn add(b: &[u64; WORDS], g: Group, o: Obstacle) -> Changed
    ensures { result ≡ whole (asked b.now (group_of g) (add (view b.now) (group_of g) o)) g g }
{
    if !is_ready(b, g) {
        return refused(numbers::BROKEN, g);
    }
    if presence::names_gone(b, o) {
        return refused(numbers::STALE, g);
    }
    let first = presence::vertex_of(b, o);
    group_adds::add(g, o, first)
}

// STALE where a node that the other group names is not present; what the own group names is not asked.
pub fn extend(b: &[u64; WORDS], g: Group, other: Group) -> Changed
    ensures { result ≡ whole (asked b.now (group_of g) (extend (view b.now) (group_of g) (group_of other))) g (whole_of g other) }
{
    if !is_ready(b, g) {
        return refused(numbers::BROKEN, g);
    }
    if !groups::group_is_sound(other) {
        return refused(numbers::BROKEN, g);
    }
    if presence::group_gone(b, other) {
        return refused(numbers::STALE, g);
    }
    group_extends::extend(g, other)
}
