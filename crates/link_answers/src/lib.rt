#![tactic(auto)]
// Answers and arguments as the words that Rust and C see (include/dual_ledger.h): a handle, a state, whether, a signed length. (Notices: crate link_told.)
// Assumes nothing.
ghost use Rattle.std.specs.Prelude.{◌≡◌};
ghost use Rattle.ledger_spec.specs.Named.{handle_named, state_named};
ghost use Rattle.bench_views.specs.Given.{hand_given};
ghost use Rattle.read_sound.specs.Shown.{maybe};
ghost use Rattle.groups.specs.Shown.{maybe_length};
ghost use Rattle.link_answers.specs.Forms.{node_word, maybe_word, indexed_word, flag_word, signed_word, length_words, state_given};

use kinds::{GrowState, Handle};

// The handle that a word gives: one of an interface that no bench has where the word is no packed handle.
pub fn hand(w: u64) -> Handle
    ensures { handle_named result ≡ hand_given w }
{
    bench_words::hand_of(w)
}

pub fn node_word(h: Handle) -> u64
    ensures { result ≡ node_word (handle_named h) }
{
    bench_words::handle_word(h)
}

// Where there is no node, the first word that is no packed handle.
pub fn maybe_word(m: Option<Handle>) -> u64
    ensures { result ≡ maybe_word (maybe m) }
{
    match m {
        None => bench_words::PAST_HANDLES,
        Some(h) => node_word(h),
    }
}

// Refused, it is the zero handle.
pub fn indexed_word(number: u8, m: Option<Handle>) -> u64
    ensures { result ≡ indexed_word number (maybe m) }
{
    if number == 0 {
        return maybe_word(m);
    }
    0
}

pub fn flag_word(yes: bool) -> u64
    ensures { result ≡ flag_word yes }
{
    if yes {
        return 1;
    }
    0
}

// Whether there is a length, and the length or 0.
pub fn asked_word(m: Option<i64>) -> u64
    ensures { result ≡ (length_words (maybe_length m)).0 }
{
    m.is_some() as u64
}

pub fn length_word(m: Option<i64>) -> u64
    ensures { result ≡ (length_words (maybe_length m)).1 }
{
    match m {
        None => 0,
        Some(l) => signed_word(l),
    }
}

// Grow, stay or shrink, by a number's sign.
pub fn state_given(s: i8) -> GrowState
    ensures { state_named result ≡ state_given s }
{
    if s < 0 {
        return GrowState::Shrink;
    }
    if 0 < s {
        return GrowState::Grow;
    }
    GrowState::Stay
}
// As a cast to an unsigned word gives it in C and Rust.
pub fn signed_word(l: i64) -> u64
    ensures { result ≡ signed_word l }
{
    if l < 0 {
        return 18446744073709551615 - ((-1 - l) as u64);
    }
    l as u64
}
