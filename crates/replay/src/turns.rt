// One line of a recording: its letter says what is done, and the answer's numbers are said.
use crate::tapes::ROOM;
use crate::{acts, circles, damage, looks, nodes, packs, tapes, tries};
use bench_words::WORDS;
use group_lent::GROUP;

// The lines that change the bench.
fn changes(
    b: &mut [u64; WORDS],
    letter: u8,
    row: &[i64; ROOM],
    n: usize,
    out: &mut [i64; ROOM],
) -> usize {
    match letter {
        b'D' => acts::defect(b, out, row, n),
        b'B' | b'b' | b't' => circles::blossom(b, out, letter, row, n),
        b'E' => acts::expand(b, out, row, n),
        b'S' => acts::set_state(b, out, row, n),
        b'G' => acts::grow(b, out, row, n),
        b'F' => acts::fuse(b, out, row, n),
        _ => acts::clear(b, out, row, n),
    }
}

// Whether a line that is refused is BROKEN on words that hold no bench, and leaves them alone.
fn broken_too(before: &[u64; WORDS], letter: u8, row: &[i64; ROOM], n: usize) -> bool {
    let mut out = [0i64; ROOM];
    let mut torn = *before;
    bench_words::store_next(&mut torn, 0);
    let kept = torn;
    let said = changes(&mut torn, letter, row, n, &mut out);
    if tapes::number(&out, said, 0) != 2 {
        return false;
    }
    tries::same_words(&torn, &kept)
}

// A line that changes the bench, or is refused: then nothing is changed.
fn tried(
    b: &mut [u64; WORDS],
    letter: u8,
    row: &[i64; ROOM],
    n: usize,
    out: &mut [i64; ROOM],
) -> usize {
    let before = *b;
    let said = changes(b, letter, row, n, out);
    if tapes::number(out, said, 0) == 0 {
        return said;
    }
    if !tries::same_words(b, &before) {
        return tries::held(out, said, false);
    }
    let right = broken_too(&before, letter, row, n);
    tries::held(out, said, right)
}

// The lines that read the bench.
fn looks_at(
    b: &[u64; WORDS],
    letter: u8,
    row: &[i64; ROOM],
    n: usize,
    out: &mut [i64; ROOM],
) -> usize {
    let unit = acts::unit_of(tapes::number(row, n, 0));
    let h = nodes::named(b, tapes::number(row, n, 0));
    match letter {
        b'K' => acts::check(b, out, row, n),
        b'k' => looks::strict(b, out, unit),
        b's' => looks::sum(b, out, unit),
        b'p' => looks::speed(b, out, unit),
        b'n' => looks::count(b, out, unit),
        b'h' => looks::index(b, out, unit, acts::word_of(tapes::number(row, n, 1))),
        b'i' => looks::belonging(b, out, unit, nodes::named(b, tapes::number(row, n, 1))),
        b'd' => nodes::dump(b, out, unit),
        b'v' => looks::value(b, out, h),
        b'o' => looks::outermost(b, out, h),
        b'u' => looks::below(b, out, h),
        b'f' => looks::first(b, out, h),
        _ => looks::vertices(b, out, h, tapes::number(row, n, 1)),
    }
}

// A read that is refused is BROKEN on words that hold no bench. The dump is no read of the bench's own.
fn looked(
    b: &[u64; WORDS],
    letter: u8,
    row: &[i64; ROOM],
    n: usize,
    out: &mut [i64; ROOM],
) -> usize {
    let said = looks_at(b, letter, row, n, out);
    if letter == b'd' {
        return said;
    }
    if tapes::number(out, said, 0) == 0 {
        return said;
    }
    let mut spare = [0i64; ROOM];
    let mut torn = *b;
    bench_words::store_next(&mut torn, 0);
    let t = looks_at(&torn, letter, row, n, &mut spare);
    tries::held(out, said, tapes::number(&spare, t, 0) == 2)
}

// A copy of the group of a number, which another is extended by.
fn copied(
    p: &[u64; GROUP],
    q: &[u64; GROUP],
    r: &[u64; GROUP],
    s: &[u64; GROUP],
    i: i64,
) -> [u64; GROUP] {
    match i {
        0 => *p,
        1 => *q,
        2 => *r,
        _ => *s,
    }
}

// The lines about one group, with the other of `j`.
fn sorts(
    b: &[u64; WORDS],
    g: &mut [u64; GROUP],
    other: &[u64; GROUP],
    letter: u8,
    row: &[i64; ROOM],
    n: usize,
    out: &mut [i64; ROOM],
) -> usize {
    match letter {
        b'e' => packs::fresh(g, out),
        b'j' => packs::extend(b, g, other, out),
        b'z' => packs::pop(g, out),
        b'y' => packs::asked(g, out),
        b'l' => packs::peek(g, out),
        b'm' => packs::whole(g, out),
        _ => packs::add(b, g, out, letter, row, n),
    }
}

// The lines about groups, by the number of the group.
fn sorted(
    b: &[u64; WORDS],
    p: &mut [u64; GROUP],
    q: &mut [u64; GROUP],
    r: &mut [u64; GROUP],
    s: &mut [u64; GROUP],
    letter: u8,
    row: &[i64; ROOM],
    n: usize,
    out: &mut [i64; ROOM],
) -> usize {
    let other = copied(p, q, r, s, tapes::number(row, n, 1));
    match tapes::number(row, n, 0) {
        0 => sorts(b, p, &other, letter, row, n, out),
        1 => sorts(b, q, &other, letter, row, n, out),
        2 => sorts(b, r, &other, letter, row, n, out),
        _ => sorts(b, s, &other, letter, row, n, out),
    }
}

// Four empty groups.
pub fn empties(
    p: &mut [u64; GROUP],
    q: &mut [u64; GROUP],
    r: &mut [u64; GROUP],
    s: &mut [u64; GROUP],
) {
    dual_ledger::obstacles::dual_ledger_empty_group(p);
    dual_ledger::obstacles::dual_ledger_empty_group(q);
    dual_ledger::obstacles::dual_ledger_empty_group(r);
    dual_ledger::obstacles::dual_ledger_empty_group(s);
}

// A new bench.
fn begins(b: &mut [u64; WORDS], first: i64, out: &mut [i64; ROOM]) -> usize {
    let number = dual_ledger::dual_ledger_set_up(b, acts::word_of(first));
    tapes::say(out, 0, number as i64)
}

// A line of the bench.
fn benched(
    b: &mut [u64; WORDS],
    letter: u8,
    row: &[i64; ROOM],
    n: usize,
    out: &mut [i64; ROOM],
) -> usize {
    match letter {
        b'D' | b'B' | b'b' | b't' | b'E' | b'S' | b'G' | b'F' | b'C' => tried(
            b, letter, row, n, out,
        ),
        _ => looked(b, letter, row, n, out),
    }
}

pub fn turn(
    b: &mut [u64; WORDS],
    p: &mut [u64; GROUP],
    q: &mut [u64; GROUP],
    r: &mut [u64; GROUP],
    s: &mut [u64; GROUP],
    letter: u8,
    row: &[i64; ROOM],
    n: usize,
    out: &mut [i64; ROOM],
) -> usize {
    match letter {
        b'N' => {
            empties(p, q, r, s);
            begins(b, tapes::number(row, n, 0), out)
        }
        b'e' | b'g' | b'c' | b'w' | b'x' | b'q' | b'r' | b'j' | b'y' | b'z' | b'l' | b'm' => sorted(
            b, p, q, r, s, letter, row, n, out,
        ),
        b'W' | b'X' | b'Y' => damage::turn(b, letter, row, n, out),
        _ => benched(b, letter, row, n, out),
    }
}
