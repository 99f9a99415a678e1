// The marks of an interface, on any words and on words that hold a sound bench: the call that gives one, and the read of it, yes as 1. Assumes nothing.
ghost use Rattle.std.specs.Prelude.{◌≡◌};
ghost use Rattle.ledger_spec.specs.Bench.{filling, floor};
ghost use Rattle.ledger_spec.specs.Calls.{Mark};
ghost use Rattle.ledger_spec.specs.Reads.{fills_of, floored_of};
ghost use Rattle.ledger_spec.specs.Answers.{fills_read, floored_read};
ghost use Rattle.bench_views.specs.Fit.{SoundWords};
ghost use Rattle.bench_views.specs.View.{view};
ghost use Rattle.sound_lent.specs.Verdict.{read_words};
ghost use Rattle.link_answers.specs.Forms.{flag_word, worded};
ghost use Rattle.dual_ledger.specs.Linked.{Settled, Left};

use bench_words::WORDS;
use kinds::numbers;

// From now to its clear the interface gives a new node its lowest empty slot.
pub fn dual_ledger_mark_filling(bench: &mut [u64; WORDS], unit: u8) -> u8
    ensures { Left bench.old (Mark unit filling) result bench.new }
{
    if !sound_lent::is_bench(bench) {
        return numbers::BROKEN;
    }
    dual_ledger_trusted_mark_filling(bench, unit)
}

pub fn dual_ledger_trusted_mark_filling(bench: &mut [u64; WORDS], unit: u8) -> u8
    requires { SoundWords bench.old }
    ensures { Settled bench.old (Mark unit filling) result bench.new }
{
    let made = call_sound::mark_filling(bench, unit);
    made.number
}

pub fn dual_ledger_is_filling(bench: &[u64; WORDS], unit: u8, filling: &mut u64) -> u8
    ensures { (result, filling.new) ≡ worded flag_word (read_words bench.now (fills_read (view bench.now) unit)) }
{
    let a = read_any::is_filling(bench, unit);
    *filling = link_answers::flag_word(a.marked);
    a.number
}

pub fn dual_ledger_trusted_is_filling(bench: &[u64; WORDS], unit: u8, filling: &mut u64) -> u8
    requires { SoundWords bench.now }
    ensures { (result, filling.new) ≡ worded flag_word (fills_of (view bench.now) unit) }
{
    let a = read_marks::is_filling(bench, unit);
    *filling = link_answers::flag_word(a.marked);
    a.number
}

// From now to its clear a growth that takes a value of the interface's tree below 0 is refused.
pub fn dual_ledger_mark_floored(bench: &mut [u64; WORDS], unit: u8) -> u8
    ensures { Left bench.old (Mark unit floor) result bench.new }
{
    if !sound_lent::is_bench(bench) {
        return numbers::BROKEN;
    }
    dual_ledger_trusted_mark_floored(bench, unit)
}

pub fn dual_ledger_trusted_mark_floored(bench: &mut [u64; WORDS], unit: u8) -> u8
    requires { SoundWords bench.old }
    ensures { Settled bench.old (Mark unit floor) result bench.new }
{
    let made = call_sound::mark_floored(bench, unit);
    made.number
}

pub fn dual_ledger_is_floored(bench: &[u64; WORDS], unit: u8, floored: &mut u64) -> u8
    ensures { (result, floored.new) ≡ worded flag_word (read_words bench.now (floored_read (view bench.now) unit)) }
{
    let a = read_any::is_floored(bench, unit);
    *floored = link_answers::flag_word(a.marked);
    a.number
}

pub fn dual_ledger_trusted_is_floored(bench: &[u64; WORDS], unit: u8, floored: &mut u64) -> u8
    requires { SoundWords bench.now }
    ensures { (result, floored.new) ≡ worded flag_word (floored_of (view bench.now) unit) }
{
    let a = read_marks::is_floored(bench, unit);
    *floored = link_answers::flag_word(a.marked);
    a.number
}
