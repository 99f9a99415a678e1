#![tactic(auto)]
// The picture of an interface, of any words at all: BROKEN (2) where they hold no sound bench; else the picture on sound words. The bench does not change.
// Assumes nothing.
ghost use Rattle.std.specs.Prelude.{◌≡◌};
ghost use Rattle.bench_views.specs.View.{view};
ghost use Rattle.read_sound.specs.Shown.{shown_vertices};
ghost use Rattle.sound_lent.specs.Verdict.{read_words};
ghost use Rattle.picture_spec.specs.Picture.{picture_read};

use bench_words::WORDS;
use kinds::numbers;
use read_sound::Counted;

// Writes the picture to the front of a slice, whose rest stays, with abbreviated names or full ones; answers its length. Refused, the slice is as it was.
pub fn snapshot(b: &[u64; WORDS], unit: u8, short: bool, out: &mut [u8]) -> Counted
    ensures { shown_vertices result out.new ≡ read_words b.now (picture_read (view b.now) unit short out.old) }
{
    if !sound_lent::is_bench(b) {
        let number = numbers::BROKEN;
        return Counted { number, count: 0 };
    }
    picture_sound::snapshot(b, unit, short, out)
}
