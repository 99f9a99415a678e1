// The exports of dual_ledger::obstacles, groups of obstacles: each has the clauses of the function that it calls. Assumes nothing.
ghost use Rattle.std.specs.Prelude.{◌≡◌, false};
ghost use Rattle.ledger_spec.specs.GroupCalls.{is_empty, is_active, growth_of};
ghost use Rattle.group_lent_takes.specs.Made.{Emptied};
ghost use Rattle.group_lent_sound.specs.Test.{sound_in};
ghost use Rattle.group_lent_any.specs.Any.{asked_of, PeekedAny, PoppedAny, SparedAny, AddedAny, ExtendedAny};
ghost use Rattle.link_answers.specs.Forms.{flag_word, length_words, worded};

use bench_words::WORDS;
use group_lent::{GROUP, OBSTACLE};

#[unsafe(no_mangle)]
pub extern "C" fn dual_ledger_empty_group(group: &mut [u64; GROUP])
    ensures { Emptied group.old group.new }
{
    dual_ledger::obstacles::dual_ledger_empty_group(group);
}

#[unsafe(no_mangle)]
pub extern "C" fn dual_ledger_group_is_sound(group: &[u64; GROUP]) -> u8
    ensures { result ≡ flag_word (sound_in group.now) }
{
    dual_ledger::obstacles::dual_ledger_group_is_sound(group)
}

#[unsafe(no_mangle)]
pub extern "C" fn dual_ledger_group_is_empty(group: &[u64; GROUP], yes: &mut u64) -> u8
    ensures { (result, yes.new) ≡ worded flag_word (asked_of group.now false is_empty) }
{
    dual_ledger::obstacles::dual_ledger_group_is_empty(group, yes)
}

#[unsafe(no_mangle)]
pub extern "C" fn dual_ledger_group_is_active(group: &[u64; GROUP], yes: &mut u64) -> u8
    ensures { (result, yes.new) ≡ worded flag_word (asked_of group.now false is_active) }
{
    dual_ledger::obstacles::dual_ledger_group_is_active(group, yes)
}

#[unsafe(no_mangle)]
pub extern "C" fn dual_ledger_group_get_none_zero_growth(
    group: &[u64; GROUP],
    asked: &mut u64,
    length: &mut u64,
) -> u8
    ensures { (result, (asked.new, length.new)) ≡ worded length_words (asked_of group.now None growth_of) }
{
    dual_ledger::obstacles::dual_ledger_group_get_none_zero_growth(group, asked, length)
}

#[unsafe(no_mangle)]
pub extern "C" fn dual_ledger_group_peek(group: &[u64; GROUP], obstacle: &mut [u64; OBSTACLE]) -> u8
    ensures { PeekedAny group.now result obstacle.new }
{
    dual_ledger::obstacles::dual_ledger_group_peek(group, obstacle)
}

#[unsafe(no_mangle)]
pub extern "C" fn dual_ledger_group_pop(
    group: &mut [u64; GROUP],
    obstacle: &mut [u64; OBSTACLE],
) -> u8
    ensures { PoppedAny group.old result obstacle.new group.new }
{
    dual_ledger::obstacles::dual_ledger_group_pop(group, obstacle)
}

#[unsafe(no_mangle)]
pub extern "C" fn dual_ledger_group_pop_sparing_stops(
    group: &mut [u64; GROUP],
    obstacle: &mut [u64; OBSTACLE],
) -> u8
    ensures { SparedAny group.old result obstacle.new group.new }
{
    dual_ledger::obstacles::dual_ledger_group_pop_sparing_stops(group, obstacle)
}

#[unsafe(no_mangle)]
pub extern "C" fn dual_ledger_group_add(
    bench: &[u64; WORDS],
    group: &mut [u64; GROUP],
    obstacle: &[u64; OBSTACLE],
) -> u8
    ensures { AddedAny bench.now group.old obstacle.now result group.new }
{
    dual_ledger::obstacles::dual_ledger_group_add(bench, group, obstacle)
}

#[unsafe(no_mangle)]
pub extern "C" fn dual_ledger_group_extend(
    bench: &[u64; WORDS],
    group: &mut [u64; GROUP],
    other: &[u64; GROUP],
) -> u8
    ensures { ExtendedAny bench.now group.old other.now result group.new }
{
    dual_ledger::obstacles::dual_ledger_group_extend(bench, group, other)
}
