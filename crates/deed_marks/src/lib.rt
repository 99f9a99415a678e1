#![tactic(auto)]
// The work of the two marks, over the words that the caller lends, against the plain ledger's own definition. No refusal is left: each asks that its
// tests pass on words that fit. Assumes nothing.
ghost use Rattle.std.specs.Prelude.{◌≡◌};
ghost use Rattle.ledger_spec.specs.Bench.{filling, floor};
ghost use Rattle.ledger_spec.specs.Tests.{first};
ghost use Rattle.ledger_spec.specs.Refuse.{mark_tests};
ghost use Rattle.ledger_spec.specs.Deeds.{choose};
ghost use Rattle.bench_views.specs.View.{view};
ghost use Rattle.bench_views.specs.Fit.{Fit, Done};

use bench_words::WORDS;

// From now on, and until it is cleared, the interface gives a new node its lowest empty slot.
pub fn mark_filling(b: &mut [u64; WORDS], unit: usize)
    requires { Fit b.old × (first (mark_tests (view b.old) unit) ≡ 0) }
    ensures { Done b.new (choose (view b.old) unit filling) }
{
    let mut f = bench_words::load_interface(b, unit);
    f.marks.fills = true;
    bench_words::store_interface(b, unit, f);
}

// From now on, and until it is cleared, no growth takes a value of the interface's tree below zero.
pub fn mark_floored(b: &mut [u64; WORDS], unit: usize)
    requires { Fit b.old × (first (mark_tests (view b.old) unit) ≡ 0) }
    ensures { Done b.new (choose (view b.old) unit floor) }
{
    let mut f = bench_words::load_interface(b, unit);
    f.marks.floored = true;
    bench_words::store_interface(b, unit, f);
}
