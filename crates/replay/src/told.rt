// What answers' words say, as numbers: handles by their serials, lengths with their sign, notices whole.
use crate::tapes;
use crate::tapes::ROOM;
use link_told::ANSWER;

// The serial of a handle's word; 0 of the word that names no node.
pub fn serial(w: u64) -> i64 {
    ((w / 512) % 4294967296) as i64
}

// A length that C would cast.
pub fn signed(w: u64) -> i64 {
    group_lent::length_of(w)
}

// A count, a size or a verdict.
pub fn small(n: u64) -> i64 {
    if n <= 4096 {
        return n as i64;
    }
    -1
}

fn two(out: &mut [i64; ROOM], n: usize, kind: i64, what: i64) -> usize {
    let a = tapes::say(out, n, kind);
    tapes::say(out, a, what)
}

fn three(out: &mut [i64; ROOM], n: usize, node: i64, state: i64) -> usize {
    let a = two(out, n, 2, node);
    tapes::say(out, a, state)
}

fn circle(out: &mut [i64; ROOM], n: usize, words: &[u64; ANSWER]) -> usize {
    let a = tapes::say(out, n, 3);
    let mut at = tapes::say(out, a, small(words[2]));
    for &h in words[135..199].iter().take(words[2] as usize) {
        at = tapes::say(out, at, serial(h));
    }
    at
}

fn notice(out: &mut [i64; ROOM], n: usize, words: &[u64; ANSWER], kind: u64, what: u64) -> usize {
    match kind {
        1 => two(out, n, 1, serial(what)),
        2 => three(out, n, serial(what), 0),
        3 => three(out, n, serial(what), 1),
        4 => three(out, n, serial(what), -1),
        5 => circle(out, n, words),
        6 => two(out, n, 4, serial(what)),
        7 => two(out, n, 5, serial(what)),
        _ => two(out, n, 6, signed(what)),
    }
}

fn entry(out: &mut [i64; ROOM], n: usize, words: &[u64; ANSWER], i: usize) -> usize {
    if i < 66 {
        return notice(out, n, words, words[3 + 2 * i], words[4 + 2 * i]);
    }
    n
}

pub fn notices(out: &mut [i64; ROOM], n: usize, words: &[u64; ANSWER]) -> usize {
    let mut at = tapes::say(out, n, small(words[1]));
    for i in 0..66 {
        if words[1] <= (i as u64) {
            return at;
        }
        at = entry(out, at, words, i);
    }
    at
}
