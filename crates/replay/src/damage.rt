// Words written by hand, and whether they hold a sound bench (oracle/damage).
use crate::tapes::ROOM;
use crate::{acts, tapes, told};
use bench_words::WORDS;

fn get(b: &[u64; WORDS], i: usize) -> u64 {
    if i < 6273 {
        return b[i];
    }
    0
}

fn put(b: &mut [u64; WORDS], i: usize, w: u64) {
    if i < 6273 {
        b[i] = w;
    }
}

// A word by its high and low half.
fn write(b: &mut [u64; WORDS], out: &mut [i64; ROOM], i: usize, high: u32, low: u32) -> usize {
    put(b, i, (high as u64) * 4294967296 + (low as u64));
    tapes::say(out, 0, 0)
}

fn sound(b: &[u64; WORDS], out: &mut [i64; ROOM]) -> usize {
    tapes::say(out, 0, dual_ledger::dual_ledger_is_sound(b) as i64)
}

// Whether the bench with this word in the place of one is sound; the old word is put back.
fn with(b: &mut [u64; WORDS], i: usize, w: u64) -> u8 {
    let old = get(b, i);
    put(b, i, w);
    let yes = dual_ledger::dual_ledger_is_sound(b);
    put(b, i, old);
    yes
}

fn more(sum: u64, yes: u8) -> u64 {
    if yes == 0 {
        if sum < 64 {
            return sum + 1;
        }
    }
    sum
}

// The 64 bits of a word, each by itself: how many are refused.
fn bits(b: &mut [u64; WORDS], out: &mut [i64; ROOM], i: usize) -> usize {
    let mut sum: u64 = 0;
    let mut bit: u64 = 1;
    for _ in 0..64 {
        let w = get(b, i);
        sum = more(sum, with(b, i, w ^ bit));
        bit = std::num::wrapping_add_u64(bit, bit);
    }
    tapes::say(out, 0, told::small(sum))
}

pub fn turn(
    b: &mut [u64; WORDS],
    letter: u8,
    row: &[i64; ROOM],
    n: usize,
    out: &mut [i64; ROOM],
) -> usize {
    let i = acts::word_of(tapes::number(row, n, 0)) as usize;
    match letter {
        b'W' => {
            let high = acts::word_of(tapes::number(row, n, 1));
            let low = acts::word_of(tapes::number(row, n, 2));
            write(b, out, i, high, low)
        }
        b'Y' => sound(b, out),
        _ => bits(b, out, i),
    }
}
