// The exports of dual_ledger::trusted_groups, groups of obstacles, on sound words: each has the clauses of the function that it calls. Assumes nothing.
ghost use Rattle.std.specs.Prelude.{◌≡◌, true};
ghost use Rattle.ledger_spec.specs.GroupCalls.{is_empty, is_active, growth_of};
ghost use Rattle.bench_views.specs.Fit.{SoundWords};
ghost use Rattle.group_lent.specs.Forms.{is_form, five_at};
ghost use Rattle.group_lent.specs.Place.{group_in, SoundGroup};
ghost use Rattle.group_lent_calls.specs.Calls.{Peeked, Popped, Spared, Added, Extended};
ghost use Rattle.link_answers.specs.Forms.{flag_word, length_words, worded};

use bench_words::WORDS;
use group_lent::{GROUP, OBSTACLE};

#[unsafe(no_mangle)]
pub extern "C" fn dual_ledger_trusted_group_is_empty(group: &[u64; GROUP], yes: &mut u64) -> u8
    requires { SoundGroup group.now }
    ensures { (result, yes.new) ≡ worded flag_word (is_empty (group_in group.now)) }
{
    dual_ledger::trusted_groups::dual_ledger_trusted_group_is_empty(group, yes)
}

#[unsafe(no_mangle)]
pub extern "C" fn dual_ledger_trusted_group_is_active(group: &[u64; GROUP], yes: &mut u64) -> u8
    requires { SoundGroup group.now }
    ensures { (result, yes.new) ≡ worded flag_word (is_active (group_in group.now)) }
{
    dual_ledger::trusted_groups::dual_ledger_trusted_group_is_active(group, yes)
}

#[unsafe(no_mangle)]
pub extern "C" fn dual_ledger_trusted_group_get_none_zero_growth(
    group: &[u64; GROUP],
    asked: &mut u64,
    length: &mut u64,
) -> u8
    requires { SoundGroup group.now }
    ensures { (result, (asked.new, length.new)) ≡ worded length_words (growth_of (group_in group.now)) }
{
    dual_ledger::trusted_groups::dual_ledger_trusted_group_get_none_zero_growth(
        group, asked, length,
    )
}

#[unsafe(no_mangle)]
pub extern "C" fn dual_ledger_trusted_group_peek(
    group: &[u64; GROUP],
    obstacle: &mut [u64; OBSTACLE],
) -> u8
    requires { SoundGroup group.now }
    ensures { Peeked group.now result obstacle.new }
{
    dual_ledger::trusted_groups::dual_ledger_trusted_group_peek(group, obstacle)
}

#[unsafe(no_mangle)]
pub extern "C" fn dual_ledger_trusted_group_pop(
    group: &mut [u64; GROUP],
    obstacle: &mut [u64; OBSTACLE],
) -> u8
    requires { SoundGroup group.old }
    ensures { Popped group.old result obstacle.new group.new }
{
    dual_ledger::trusted_groups::dual_ledger_trusted_group_pop(group, obstacle)
}

#[unsafe(no_mangle)]
pub extern "C" fn dual_ledger_trusted_group_pop_sparing_stops(
    group: &mut [u64; GROUP],
    obstacle: &mut [u64; OBSTACLE],
) -> u8
    requires { SoundGroup group.old }
    ensures { Spared group.old result obstacle.new group.new }
{
    dual_ledger::trusted_groups::dual_ledger_trusted_group_pop_sparing_stops(group, obstacle)
}

#[unsafe(no_mangle)]
pub extern "C" fn dual_ledger_trusted_group_add(
    bench: &[u64; WORDS],
    group: &mut [u64; GROUP],
    obstacle: &[u64; OBSTACLE],
) -> u8
    requires sound_words { SoundWords bench.now × SoundGroup group.old }
    requires obstacle_value { is_form (five_at obstacle.now 0) ≡ true }
    ensures { Added bench.now group.old (five_at obstacle.now 0) result group.new }
{
    dual_ledger::trusted_groups::dual_ledger_trusted_group_add(bench, group, obstacle)
}

#[unsafe(no_mangle)]
pub extern "C" fn dual_ledger_trusted_group_extend(
    bench: &[u64; WORDS],
    group: &mut [u64; GROUP],
    other: &[u64; GROUP],
) -> u8
    requires { SoundWords bench.now × (SoundGroup group.old × SoundGroup other.now) }
    ensures { Extended bench.now group.old other.now result group.new }
{
    dual_ledger::trusted_groups::dual_ledger_trusted_group_extend(bench, group, other)
}
