// The picture of an interface for the viewer, on any words and on sound ones. Any number but 0 asks for abbreviated names. The bench does not change.
// Assumes nothing.
ghost use Rattle.std.specs.Prelude.{◌≡◌};
ghost use Rattle.bench_views.specs.View.{view};
ghost use Rattle.bench_views.specs.Fit.{SoundWords};
ghost use Rattle.sound_lent.specs.Verdict.{read_words};
ghost use Rattle.picture_spec.specs.Picture.{picture_into, picture_read};
ghost use Rattle.picture_any.specs.Chosen.{chosen};

use bench_words::WORDS;

pub fn dual_ledger_snapshot(
    bench: &[u64; WORDS],
    unit: u8,
    abbreviated: u8,
    out: &mut [u8],
    length: &mut u64,
) -> u8
    ensures { (result, (length.new, out.new)) ≡ read_words bench.now (picture_read (view bench.now) unit (chosen abbreviated) out.old) }
{
    let a = picture_any::snapshot(bench, unit, abbreviated != 0, out);
    *length = a.count;
    a.number
}

pub fn dual_ledger_trusted_snapshot(
    bench: &[u64; WORDS],
    unit: u8,
    abbreviated: u8,
    out: &mut [u8],
    length: &mut u64,
) -> u8
    requires { SoundWords bench.now }
    ensures { (result, (length.new, out.new)) ≡ picture_into (view bench.now) unit (chosen abbreviated) out.old }
{
    let a = picture_sound::snapshot(bench, unit, abbreviated != 0, out);
    *length = a.count;
    a.number
}
