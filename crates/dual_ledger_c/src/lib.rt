#![tactic(auto)]
// What Rust and C link: every function of crate dual_ledger under its C name (include/dual_ledger.h). Each has, word for word, the clauses of the function
// that it calls. Assumes nothing.
mod marks; // the marks of an interface
mod obstacles; // groups of obstacles
mod open_calls; // the calls on any words
mod open_reads; // the reads and checks on any words
mod pictures; // the picture for the viewer
mod present; // the reads of present nodes
mod recorded; // growing against a recording
mod records; // files of byte records
mod runs; // a run over a file of byte records
mod text; // the text program's lines and chunks
mod told_calls; // the calls on sound words, with notices
mod trusted_calls; // the calls on sound words, without notices
mod trusted_groups; // groups of obstacles, on sound words
mod trusted_reads; // the reads and checks on sound words

ghost use Rattle.std.specs.Prelude.{◌≡◌, true};
ghost use Rattle.call_set_up.specs.Opened.{OpenedBy, OpenedInBy};
ghost use Rattle.sound_bench.specs.Sound.{sound_words};
ghost use Rattle.link_answers.specs.Forms.{flag_word};

use bench_words::WORDS;

#[unsafe(no_mangle)]
pub extern "C" fn dual_ledger_set_up(bench: &mut [u64; WORDS], first: u32) -> u8
    ensures { OpenedBy first result bench.new }
{
    dual_ledger::dual_ledger_set_up(bench, first)
}

#[unsafe(no_mangle)]
pub extern "C" fn dual_ledger_set_up_plain(bench: &mut [u64; WORDS], first: u32) -> u8
    ensures { OpenedInBy true first result bench.new }
{
    dual_ledger::dual_ledger_set_up_plain(bench, first)
}

#[unsafe(no_mangle)]
pub extern "C" fn dual_ledger_is_sound(bench: &[u64; WORDS]) -> u8
    ensures { result ≡ flag_word (sound_words bench.now) }
{
    dual_ledger::dual_ledger_is_sound(bench)
}
