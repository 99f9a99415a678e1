// The exports of dual_ledger::pictures, the picture for the viewer: each has the clauses of the function that it calls. Assumes nothing.
ghost use Rattle.std.specs.Prelude.{◌≡◌};
ghost use Rattle.bench_views.specs.View.{view};
ghost use Rattle.bench_views.specs.Fit.{SoundWords};
ghost use Rattle.sound_lent.specs.Verdict.{read_words};
ghost use Rattle.picture_spec.specs.Picture.{picture_into, picture_read};
ghost use Rattle.picture_any.specs.Chosen.{chosen};

use bench_words::WORDS;

#[unsafe(no_mangle)]
pub extern "C" fn dual_ledger_snapshot(
    bench: &[u64; WORDS],
    unit: u8,
    abbreviated: u8,
    out: &mut [u8],
    length: &mut u64,
) -> u8
    ensures { (result, (length.new, out.new)) ≡ read_words bench.now (picture_read (view bench.now) unit (chosen abbreviated) out.old) }
{
    dual_ledger::pictures::dual_ledger_snapshot(bench, unit, abbreviated, out, length)
}

#[unsafe(no_mangle)]
pub extern "C" fn dual_ledger_trusted_snapshot(
    bench: &[u64; WORDS],
    unit: u8,
    abbreviated: u8,
    out: &mut [u8],
    length: &mut u64,
) -> u8
    requires { SoundWords bench.now }
    ensures { (result, (length.new, out.new)) ≡ picture_into (view bench.now) unit (chosen abbreviated) out.old }
{
    dual_ledger::pictures::dual_ledger_trusted_snapshot(bench, unit, abbreviated, out, length)
}
