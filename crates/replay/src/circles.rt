// The lines that make a blossom: by serials alone, by serials with their touching pairs, and with lists of any two lengths.
ghost use Rattle.std.specs.Prelude.{◌≤◌};

use crate::tapes::ROOM;
use crate::{acts, nodes, tapes};
use bench_words::WORDS;
use link_told::ANSWER;

// Members and touching handles of one line, at most: more than any circle holds.
const LIST: usize = 1280;

fn keep(list: &mut [u64], n: usize, w: u64) {
    if n < list.len() {
        list[n] = w;
    }
}

// The serial at a place of a row, as a packed handle.
fn packed(b: &[u64; WORDS], row: &[i64; ROOM], n: usize, i: usize) -> u64 {
    nodes::named(b, tapes::number(row, n, i))
}

// The serials of a row from one place up to another, as packed handles; how many there are.
fn gather(b: &[u64; WORDS], row: &[i64; ROOM], from: usize, to: usize, list: &mut [u64]) -> usize {
    let mut n: usize = 0;
    for i in from..to {
        if n == LIST {
            return n;
        }
        keep(list, n, packed(b, row, to, i));
        n += 1;
    }
    n
}

// The members of a row of triples, and their touching handles, two for each; how many members there are.
fn triples(
    b: &[u64; WORDS],
    row: &[i64; ROOM],
    n: usize,
    members: &mut [u64],
    touching: &mut [u64],
) -> usize
    ensures { result ≤ 640 }
{
    for k in 0..640 {
        let i = k * 3 + 1;
        if n <= i {
            return k;
        }
        keep(members, k, packed(b, row, n, i));
        keep(touching, k * 2, packed(b, row, n, i + 1));
        keep(touching, k * 2 + 1, packed(b, row, n, i + 2));
    }
    640
}

// A blossom of the first m members, with the first t touching handles.
fn made(
    b: &mut [u64; WORDS],
    out: &mut [i64; ROOM],
    unit: u8,
    members: &[u64],
    m: usize,
    touching: &[u64],
    t: usize,
) -> usize {
    let i = tapes::within(m, members);
    let j = tapes::within(t, touching);
    let mut words = [0u64; ANSWER];
    let r = dual_ledger::open_calls::dual_ledger_create_blossom(
        b,
        unit,
        &members[..i],
        &touching[..j],
        &mut words,
    );
    acts::answer(b, out, r, &words, unit)
}

fn plain_in(
    b: &mut [u64; WORDS],
    out: &mut [i64; ROOM],
    row: &[i64; ROOM],
    n: usize,
    members: &mut [u64],
    touching: &mut [u64],
) -> usize {
    let unit = acts::unit_of(tapes::number(row, n, 0));
    let m = gather(b, row, 1, n, members);
    made(b, out, unit, members, m, touching, 0)
}

fn paired_in(
    b: &mut [u64; WORDS],
    out: &mut [i64; ROOM],
    row: &[i64; ROOM],
    n: usize,
    members: &mut [u64],
    touching: &mut [u64],
) -> usize {
    let unit = acts::unit_of(tapes::number(row, n, 0));
    let m = triples(b, row, n, members, touching);
    made(b, out, unit, members, m, touching, m * 2)
}

// The place where a row's touching handles begin, after so many members.
fn turning(n: usize, z: i64) -> usize {
    let m = tapes::natural(z);
    if 1280 < m {
        return n;
    }
    (m as usize) + 2
}

fn listed_in(
    b: &mut [u64; WORDS],
    out: &mut [i64; ROOM],
    row: &[i64; ROOM],
    n: usize,
    members: &mut [u64],
    touching: &mut [u64],
) -> usize {
    let unit = acts::unit_of(tapes::number(row, n, 0));
    let at = turning(n, tapes::number(row, n, 1));
    let m = gather(b, row, 2, at, members);
    let t = gather(b, row, at, n, touching);
    made(b, out, unit, members, m, touching, t)
}

// The line's blossom, by its letter: `B` has serials alone, `b` triples, `t` lists of any two lengths.
pub fn blossom(
    b: &mut [u64; WORDS],
    out: &mut [i64; ROOM],
    letter: u8,
    row: &[i64; ROOM],
    n: usize,
) -> usize {
    let mut members = [0u64; LIST];
    let mut touching = [0u64; LIST];
    match letter {
        b'B' => plain_in(b, out, row, n, &mut members, &mut touching),
        b'b' => paired_in(b, out, row, n, &mut members, &mut touching),
        _ => listed_in(b, out, row, n, &mut members, &mut touching),
    }
}
