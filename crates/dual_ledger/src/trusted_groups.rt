// Groups of obstacles on words that hold a sound group, and for add and extend a sound bench: nothing is tested but what the manual refuses. Assumes nothing.
ghost use Rattle.std.specs.Prelude.{◌≡◌, true};
ghost use Rattle.ledger_spec.specs.GroupCalls.{is_empty, is_active, growth_of};
ghost use Rattle.bench_views.specs.Fit.{SoundWords};
ghost use Rattle.group_lent.specs.Forms.{is_form, five_at};
ghost use Rattle.group_lent.specs.Place.{group_in, SoundGroup};
ghost use Rattle.group_lent_calls.specs.Calls.{Peeked, Popped, Spared, Added, Extended};
ghost use Rattle.link_answers.specs.Forms.{flag_word, length_words, worded};

use bench_words::WORDS;
use group_lent::{GROUP, OBSTACLE};

pub fn dual_ledger_trusted_group_is_empty(group: &[u64; GROUP], yes: &mut u64) -> u8
    requires { SoundGroup group.now }
    ensures { (result, yes.new) ≡ worded flag_word (is_empty (group_in group.now)) }
{
    let a = group_lent_takes::is_empty(group);
    *yes = link_answers::flag_word(a);
    0
}

pub fn dual_ledger_trusted_group_is_active(group: &[u64; GROUP], yes: &mut u64) -> u8
    requires { SoundGroup group.now }
    ensures { (result, yes.new) ≡ worded flag_word (is_active (group_in group.now)) }
{
    let a = group_lent_takes::is_active(group);
    *yes = link_answers::flag_word(a);
    0
}

pub fn dual_ledger_trusted_group_get_none_zero_growth(
    group: &[u64; GROUP],
    asked: &mut u64,
    length: &mut u64,
) -> u8
    requires { SoundGroup group.now }
    ensures { (result, (asked.new, length.new)) ≡ worded length_words (growth_of (group_in group.now)) }
{
    let a = group_lent_takes::get_none_zero_growth(group);
    let l = a.length;
    *asked = link_answers::asked_word(l);
    *length = link_answers::length_word(l);
    a.number
}

pub fn dual_ledger_trusted_group_peek(group: &[u64; GROUP], obstacle: &mut [u64; OBSTACLE]) -> u8
    requires { SoundGroup group.now }
    ensures { Peeked group.now result obstacle.new }
{
    group_lent_calls::peek(group, obstacle)
}

pub fn dual_ledger_trusted_group_pop(group: &mut [u64; GROUP], obstacle: &mut [u64; OBSTACLE]) -> u8
    requires { SoundGroup group.old }
    ensures { Popped group.old result obstacle.new group.new }
{
    group_lent_calls::pop(group, obstacle)
}

pub fn dual_ledger_trusted_group_pop_sparing_stops(
    group: &mut [u64; GROUP],
    obstacle: &mut [u64; OBSTACLE],
) -> u8
    requires { SoundGroup group.old }
    ensures { Spared group.old result obstacle.new group.new }
{
    group_lent_calls::pop_sparing_stops(group, obstacle)
}

pub fn dual_ledger_trusted_group_add(
    bench: &[u64; WORDS],
    group: &mut [u64; GROUP],
    obstacle: &[u64; OBSTACLE],
) -> u8
    requires sound_words { SoundWords bench.now × SoundGroup group.old }
    requires obstacle_value { is_form (five_at obstacle.now 0) ≡ true }
    ensures { Added bench.now group.old (five_at obstacle.now 0) result group.new }
{
    group_lent_calls::add(bench, group, obstacle)
}

pub fn dual_ledger_trusted_group_extend(
    bench: &[u64; WORDS],
    group: &mut [u64; GROUP],
    other: &[u64; GROUP],
) -> u8
    requires { SoundWords bench.now × (SoundGroup group.old × SoundGroup other.now) }
    ensures { Extended bench.now group.old other.now result group.new }
{
    group_lent_calls::extend(bench, group, other)
}
