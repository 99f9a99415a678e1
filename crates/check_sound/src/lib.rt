#![tactic(auto)]
// The check and the strict check (docs/MANUAL.md, The check) on words that hold a sound bench: a refusal number, and where that is 0 a verdict and an index.
// Neither changes the bench; UNIT (3) and CHILD (4) refuse. Assumes nothing.
ghost use Rattle.std.specs.Prelude.{◌≡◌, ◌<◌};
ghost use Rattle.ledger_spec.specs.Look.{interface};
ghost use Rattle.ledger_spec.specs.Check.{check_of, strict_of};
ghost use Rattle.bench_views.specs.Fit.{Fit};
ghost use Rattle.bench_views.specs.View.{view};
ghost use Rattle.check_sound.specs.Judged.{shown_check, judged_by, Judges};

use bench_words::WORDS;
use check_walks::Judged;
use kinds::NodeIndex;

// A number, a verdict and an index.
#[derive(Clone, Copy)]
pub struct Checked {
    pub number: u8,
    pub verdict: u8,
    pub index: NodeIndex,
}

// 1 to 4 by the walk, then 5 by the sum, and strictly 6 by a second walk.
fn judge(b: &[u64; WORDS], unit: usize, strict: bool) -> Judged
    requires fit { Fit b.now }
    requires unit_bound { unit < 8 }
    requires unit_value { (interface (view b.now) unit).parent ≡ None }
    ensures { Judges b.now unit strict result }
{
    let mut places = [0usize; check_places::SLOTS];
    let mut nests = [0u64; check_nests::SLOTS];
    let count = check_places::list(b, unit, &mut places);
    let w = check_walks::walk(b, unit, &places, count, &mut nests, false);
    if w.verdict != 0 {
        return w;
    }
    let total = check_totals::total(b, unit, &places, count);
    let f = bench_words::load_interface(b, unit);
    if total != f.sum {
        return Judged {
            verdict: 5,
            index: NodeIndex(0),
        };
    }
    if strict {
        return check_walks::walk(b, unit, &places, count, &mut nests, true);
    }
    Judged {
        verdict: 0,
        index: NodeIndex(0),
    }
}

fn check(b: &[u64; WORDS], unit: u8, strict: bool) -> Checked
    requires { Fit b.now }
    ensures { shown_check result ≡ judged_by strict (view b.now) unit }
{
    let number = read_sound::unit_number(b, unit);
    if number != 0 {
        return Checked {
            number,
            verdict: 0,
            index: NodeIndex(0),
        };
    }
    let j = judge(b, unit as usize, strict);
    let index = j.index;
    Checked {
        number: 0,
        verdict: j.verdict,
        index,
    }
}

pub fn sanity_check(b: &[u64; WORDS], unit: u8) -> Checked
    requires { Fit b.now }
    ensures { shown_check result ≡ check_of (view b.now) unit }
{
    check(b, unit, false)
}

pub fn strict_check(b: &[u64; WORDS], unit: u8) -> Checked
    requires { Fit b.now }
    ensures { shown_check result ≡ strict_of (view b.now) unit }
{
    check(b, unit, true)
}
