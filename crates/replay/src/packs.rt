// The lines about obstacle groups, each on a group's lent words.
use crate::tapes::ROOM;
use crate::{acts, nodes, tapes, told};
use bench_words::WORDS;
use group_lent::{GROUP, OBSTACLE};

fn flag_of(z: i64) -> u64 {
    if z == 1 {
        return 1;
    }
    0
}

fn named(b: &[u64; WORDS], row: &[i64; ROOM], n: usize, i: usize) -> u64 {
    nodes::named(b, tapes::number(row, n, i))
}

fn put(o: &mut [u64; OBSTACLE], kind: u64, x: u64, y: u64) {
    o[0] = kind;
    o[1] = x;
    o[2] = y;
}

fn put_more(o: &mut [u64; OBSTACLE], x: u64, y: u64) {
    o[3] = x;
    o[4] = y;
}

// The obstacle that a line adds, by its letter.
fn obstacle(b: &[u64; WORDS], o: &mut [u64; OBSTACLE], letter: u8, row: &[i64; ROOM], n: usize) {
    let z = tapes::number(row, n, 1);
    let v = acts::word_of(tapes::number(row, n, 3)) as u64;
    match letter {
        b'g' => put(
            o,
            1,
            link_answers::signed_word(z),
            flag_of(tapes::number(row, n, 2)),
        ),
        b'c' => {
            put(o, 2, named(b, row, n, 1), named(b, row, n, 2));
            put_more(o, named(b, row, n, 3), named(b, row, n, 4));
        }
        b'w' => {
            put(o, 3, named(b, row, n, 1), named(b, row, n, 2));
            put_more(o, v, flag_of(tapes::number(row, n, 4)));
        }
        b'x' => put(o, 4, named(b, row, n, 1), 0),
        b'q' => put(o, 5, named(b, row, n, 1), 0),
        _ => {
            put(o, 6, named(b, row, n, 1), named(b, row, n, 2));
            put_more(o, named(b, row, n, 3), 0);
        }
    }
}

pub fn add(
    b: &[u64; WORDS],
    g: &mut [u64; GROUP],
    out: &mut [i64; ROOM],
    letter: u8,
    row: &[i64; ROOM],
    n: usize,
) -> usize {
    let mut o = [0u64; OBSTACLE];
    obstacle(b, &mut o, letter, row, n);
    let number = dual_ledger::obstacles::dual_ledger_group_add(b, g, &o);
    tapes::say(out, 0, number as i64)
}

pub fn extend(
    b: &[u64; WORDS],
    g: &mut [u64; GROUP],
    other: &[u64; GROUP],
    out: &mut [i64; ROOM],
) -> usize {
    let number = dual_ledger::obstacles::dual_ledger_group_extend(b, g, other);
    tapes::say(out, 0, number as i64)
}

// The four words after an obstacle's kind: how many are said, and whether as serials.
fn nodes_said(out: &mut [i64; ROOM], n: usize, x: u64, y: u64) -> usize {
    let a = tapes::say(out, n, told::serial(x));
    tapes::say(out, a, told::serial(y))
}

fn said(out: &mut [i64; ROOM], n: usize, x: u64, y: u64, z: u64, w: u64, kind: u64) -> usize {
    match kind {
        1 => {
            let a = tapes::say(out, n, told::signed(x));
            tapes::say(out, a, told::small(y))
        }
        2 => {
            let a = nodes_said(out, n, x, y);
            nodes_said(out, a, z, w)
        }
        3 => {
            let a = nodes_said(out, n, x, y);
            let c = tapes::say(out, a, (z % 4294967296) as i64);
            tapes::say(out, c, told::small(w))
        }
        6 => {
            let a = nodes_said(out, n, x, y);
            tapes::say(out, a, told::serial(z))
        }
        _ => tapes::say(out, n, told::serial(x)),
    }
}

fn shown(out: &mut [i64; ROOM], n: usize, o: &[u64; OBSTACLE]) -> usize {
    let a = tapes::say(out, n, told::small(o[0]));
    if o[0] == 0 {
        return a;
    }
    said(out, a, o[1], o[2], o[3], o[4], o[0])
}

pub fn pop(g: &mut [u64; GROUP], out: &mut [i64; ROOM]) -> usize {
    let mut o = [0u64; OBSTACLE];
    let number = dual_ledger::obstacles::dual_ledger_group_pop(g, &mut o);
    let n = tapes::say(out, 0, number as i64);
    shown(out, n, &o)
}

pub fn peek(g: &[u64; GROUP], out: &mut [i64; ROOM]) -> usize {
    let mut o = [0u64; OBSTACLE];
    let number = dual_ledger::obstacles::dual_ledger_group_peek(g, &mut o);
    let n = tapes::say(out, 0, number as i64);
    shown(out, n, &o)
}

// Empty, active, and the growth asked.
pub fn asked(g: &[u64; GROUP], out: &mut [i64; ROOM]) -> usize {
    let mut empty: u64 = 0;
    let mut active: u64 = 0;
    dual_ledger::obstacles::dual_ledger_group_is_empty(g, &mut empty);
    dual_ledger::obstacles::dual_ledger_group_is_active(g, &mut active);
    let n = tapes::say(out, 0, 0);
    let m = tapes::say(out, n, told::small(empty));
    let k = tapes::say(out, m, told::small(active));
    grown(g, out, k)
}

fn grown(g: &[u64; GROUP], out: &mut [i64; ROOM], n: usize) -> usize {
    let mut known: u64 = 0;
    let mut length: u64 = 0;
    let number = dual_ledger::obstacles::dual_ledger_group_get_none_zero_growth(
        g,
        &mut known,
        &mut length,
    );
    let a = tapes::say(out, n, number as i64);
    let c = tapes::say(out, a, told::small(known));
    tapes::say(out, c, told::signed(length))
}

pub fn fresh(g: &mut [u64; GROUP], out: &mut [i64; ROOM]) -> usize {
    dual_ledger::obstacles::dual_ledger_empty_group(g);
    tapes::say(out, 0, 0)
}

// The obstacle whose five words stand at a place of a group.
fn entry(out: &mut [i64; ROOM], n: usize, g: &[u64; GROUP], at: usize) -> usize {
    if 1409 <= at {
        return n;
    }
    let mut o = [0u64; OBSTACLE];
    put(&mut o, g[at], g[at + 1], g[at + 2]);
    put_more(&mut o, g[at + 3], g[at + 4]);
    shown(out, n, &o)
}

fn stop(out: &mut [i64; ROOM], n: usize, g: &[u64; GROUP], at: usize) -> usize {
    if 1408 <= at {
        return n;
    }
    let a = tapes::say(out, n, (g[at] % 4294967296) as i64);
    entry(out, a, g, at + 1)
}

fn list(out: &mut [i64; ROOM], n: usize, g: &[u64; GROUP]) -> usize {
    let mut at = tapes::say(out, n, told::small(g[3]));
    for i in 0..128 {
        if g[3] <= (i as u64) {
            return at;
        }
        at = entry(out, at, g, 5 + 5 * i);
    }
    at
}

fn stops(out: &mut [i64; ROOM], n: usize, g: &[u64; GROUP]) -> usize {
    let mut at = tapes::say(out, n, told::small(g[4]));
    for i in 0..128 {
        if g[4] <= (i as u64) {
            return at;
        }
        at = stop(out, at, g, 645 + 6 * i);
    }
    at
}

// A group, whole.
pub fn whole(g: &[u64; GROUP], out: &mut [i64; ROOM]) -> usize {
    let n = tapes::say(out, 0, 0);
    let a = tapes::say(out, n, told::small(g[0]));
    if g[0] == 1 {
        let c = tapes::say(out, a, told::signed(g[1]));
        return tapes::say(out, c, told::small(g[2]));
    }
    let c = list(out, a, g);
    stops(out, c, g)
}
