// The lines that change the bench: what the linked call answers, with its notices.
use crate::tapes::ROOM;
use crate::{nodes, tapes, told};
use bench_words::WORDS;
use link_told::ANSWER;

pub fn unit_of(z: i64) -> u8 {
    let n = tapes::natural(z);
    if 255 < n {
        return 255;
    }
    n as u8
}

pub fn word_of(z: i64) -> u32 {
    let n = tapes::natural(z);
    if 4294967295 < n {
        return 0;
    }
    n as u32
}

fn state_of(z: i64) -> i8 {
    if z == 0 {
        return 0;
    }
    if z < 0 {
        return -1;
    }
    1
}

pub fn speed(b: &[u64; WORDS], number: u8, unit: u8) -> i64 {
    let mut w: u64 = 0;
    if number != 3 {
        dual_ledger::open_reads::dual_ledger_sum_grow_speed(b, unit, &mut w);
    }
    told::signed(w)
}

pub fn sum(b: &[u64; WORDS], number: u8, unit: u8) -> i64 {
    let mut w: u64 = 0;
    if number != 3 {
        dual_ledger::open_reads::dual_ledger_sum_dual_variables(b, unit, &mut w);
    }
    told::signed(w)
}

// Number, serial, and speed and sum of the interface, which UNIT and an interface with a parent do not show.
pub fn four(b: &[u64; WORDS], out: &mut [i64; ROOM], number: u8, serial: i64, unit: u8) -> usize {
    let a = tapes::say(out, 0, number as i64);
    let s = tapes::say(out, a, serial);
    let t = tapes::say(out, s, speed(b, number, unit));
    tapes::say(out, t, sum(b, number, unit))
}

// The whole answer of a call on an interface.
pub fn answer(
    b: &[u64; WORDS],
    out: &mut [i64; ROOM],
    number: u8,
    words: &[u64; ANSWER],
    unit: u8,
) -> usize {
    let n = four(b, out, number, told::serial(words[0]), unit);
    told::notices(out, n, words)
}

pub fn defect(b: &mut [u64; WORDS], out: &mut [i64; ROOM], row: &[i64; ROOM], n: usize) -> usize {
    let mut words = [0u64; ANSWER];
    let unit = unit_of(tapes::number(row, n, 0));
    let vertex = word_of(tapes::number(row, n, 1));
    let r = dual_ledger::open_calls::dual_ledger_create_defect_node(b, unit, vertex, &mut words);
    answer(b, out, r, &words, unit)
}

pub fn expand(b: &mut [u64; WORDS], out: &mut [i64; ROOM], row: &[i64; ROOM], n: usize) -> usize {
    let mut words = [0u64; ANSWER];
    let unit = unit_of(tapes::number(row, n, 0));
    let h = nodes::named(b, tapes::number(row, n, 1));
    let r = dual_ledger::open_calls::dual_ledger_expand_blossom(b, unit, h, &mut words);
    answer(b, out, r, &words, unit)
}

pub fn set_state(
    b: &mut [u64; WORDS],
    out: &mut [i64; ROOM],
    row: &[i64; ROOM],
    n: usize,
) -> usize {
    let mut words = [0u64; ANSWER];
    let unit = unit_of(tapes::number(row, n, 0));
    let h = nodes::named(b, tapes::number(row, n, 1));
    let state = state_of(tapes::number(row, n, 2));
    let r = dual_ledger::open_calls::dual_ledger_set_grow_state(b, unit, h, state, &mut words);
    answer(b, out, r, &words, unit)
}

pub fn grow(b: &mut [u64; WORDS], out: &mut [i64; ROOM], row: &[i64; ROOM], n: usize) -> usize {
    let mut words = [0u64; ANSWER];
    let unit = unit_of(tapes::number(row, n, 0));
    let length = tapes::number(row, n, 1);
    let r = dual_ledger::open_calls::dual_ledger_grow(b, unit, length, &mut words);
    answer(b, out, r, &words, unit)
}

// Neither node nor notice.
fn bare(b: &[u64; WORDS], out: &mut [i64; ROOM], number: u8, unit: u8) -> usize {
    let n = four(b, out, number, 0, unit);
    tapes::say(out, n, 0)
}

pub fn fuse(b: &mut [u64; WORDS], out: &mut [i64; ROOM], row: &[i64; ROOM], n: usize) -> usize {
    let parent = unit_of(tapes::number(row, n, 0));
    let left = unit_of(tapes::number(row, n, 1));
    let right = unit_of(tapes::number(row, n, 2));
    let r = dual_ledger::open_calls::dual_ledger_fuse(b, parent, left, right);
    bare(b, out, r, parent)
}

pub fn clear(b: &mut [u64; WORDS], out: &mut [i64; ROOM], row: &[i64; ROOM], n: usize) -> usize {
    let unit = unit_of(tapes::number(row, n, 0));
    let r = dual_ledger::open_calls::dual_ledger_clear(b, unit);
    bare(b, out, r, unit)
}

pub fn check(b: &[u64; WORDS], out: &mut [i64; ROOM], row: &[i64; ROOM], n: usize) -> usize {
    let unit = unit_of(tapes::number(row, n, 0));
    let mut verdict: u64 = 0;
    let mut index: u64 = 0;
    let r = dual_ledger::open_reads::dual_ledger_sanity_check(b, unit, &mut verdict, &mut index);
    let m = four(b, out, r, told::small(verdict), unit);
    tapes::say(out, m, told::small(index))
}
