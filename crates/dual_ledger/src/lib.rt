#![tactic(auto)]
// What Rust and C link, by crate dual_ledger_c: every public call, read and check by its C name, over words, numbers and slices (include/dual_ledger.h). Each
// is one call of the crate that does it, its answer written out as words. Assumes nothing.
pub mod marks; // the marks of an interface
pub mod obstacles; // groups of obstacles
pub mod open_calls; // the calls on any words
pub mod open_reads; // the reads and checks on any words
pub mod pictures; // the picture for the viewer
pub mod present; // the reads of present nodes
pub mod recorded; // growing against a recording
pub mod records; // files of byte records
pub mod runs; // a run over a file of byte records
pub mod text; // the text program's lines and chunks
pub mod told_calls; // the calls on sound words, with notices
pub mod trusted_calls; // the calls on sound words, without notices
pub mod trusted_groups; // groups of obstacles, on sound words
pub mod trusted_reads; // the reads and checks on sound words

ghost use Rattle.std.specs.Prelude.{◌≡◌, true};
ghost use Rattle.call_set_up.specs.Opened.{OpenedBy, OpenedInBy};
ghost use Rattle.sound_bench.specs.Sound.{sound_words};
ghost use Rattle.link_answers.specs.Forms.{flag_word};

use bench_words::WORDS;

pub fn dual_ledger_set_up(bench: &mut [u64; WORDS], first: u32) -> u8
    ensures { OpenedBy first result bench.new }
{
    call_set_up::set_up(bench, first)
}

pub fn dual_ledger_set_up_plain(bench: &mut [u64; WORDS], first: u32) -> u8
    ensures { OpenedInBy true first result bench.new }
{
    call_set_up::set_up_in(bench, true, first)
}

pub fn dual_ledger_is_sound(bench: &[u64; WORDS]) -> u8
    ensures { result ≡ flag_word (sound_words bench.now) }
{
    if sound_lent::is_bench(bench) {
        return 1;
    }
    0
}
