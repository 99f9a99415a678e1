#![tactic(auto)]
// The check and the strict check (docs/MANUAL.md, The check) for anyone, on any words: BROKEN (2) where they hold no sound bench, then UNIT (3) and CHILD (4), else a
// verdict and an index. Neither changes the bench. Assumes nothing.
ghost use Rattle.std.specs.Prelude.{◌≡◌};
ghost use Rattle.bench_views.specs.View.{view};
ghost use Rattle.check_sound.specs.Judged.{shown_check};
ghost use Rattle.sound_lent.specs.Verdict.{read_words};
ghost use Rattle.ledger_spec.specs.Answers.{check_read, strict_read};

use bench_words::WORDS;
use check_sound::Checked;
use kinds::{NodeIndex, numbers};

fn broken() -> Checked
    ensures { shown_check result ≡ (2, (0, 0)) }
{
    Checked {
        number: numbers::BROKEN,
        verdict: 0,
        index: NodeIndex(0),
    }
}

pub fn sanity_check(b: &[u64; WORDS], unit: u8) -> Checked
    ensures { shown_check result ≡ read_words b.now (check_read (view b.now) unit) }
{
    if !sound_lent::is_bench(b) {
        return broken();
    }
    check_sound::sanity_check(b, unit)
}

pub fn strict_check(b: &[u64; WORDS], unit: u8) -> Checked
    ensures { shown_check result ≡ read_words b.now (strict_read (view b.now) unit) }
{
    if !sound_lent::is_bench(b) {
        return broken();
    }
    check_sound::strict_check(b, unit)
}
