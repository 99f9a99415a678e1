#![tactic(auto)]
// The members that a `B` line names by their serials, as the packed handles that a call takes. Everything here only reads. Assumes nothing.
ghost use Rattle.std.specs.Prelude.{◌≤◌, length};
ghost use Rattle.bench_views.specs.Fit.{SoundWords};
ghost use Rattle.bench_views.specs.View.{view};
ghost use Rattle.text_members.specs.Names.{Names, AllNamed};

use bench_serials::HINTS;
use bench_words::WORDS;
use kinds::{Handle, Serial};

// A word that is no packed handle.
pub const NOBODY: u64 = bench_words::PAST_HANDLES;

// The packed handle of the node with a serial, or a word that names no node.
fn member(b: &[u64; WORDS], serial: u64, hints: &mut [u16; HINTS]) -> u64
    requires { SoundWords b.now }
    ensures { Names (view b.now) serial result }
{
    if (Serial::LAST as u64) < serial {
        return NOBODY;
    }
    let s = Serial(serial as u32);
    match bench_serials::seek(b, s, hints) {
        Some(k) => bench_words::handle_word(Handle {
            unit: (k / 64) as u8,
            slot: (k % 64) as u8,
            serial: s,
        }),
        None => NOBODY,
    }
}

// Puts packed handles in the place of the first n serials.
pub fn name(b: &[u64; WORDS], serials: &mut [u64], n: usize, hints: &mut [u16; HINTS])
    requires { SoundWords b.now × (n ≤ length serials.old) }
    ensures { AllNamed (view b.now) n serials.old serials.new }
{
    for word in &mut serials[..n] {
        *word = member(b, *word, hints);
    }
}
