#![tactic(auto)]
// Replays recordings of the Rust (oracle/README.md has their language): each line's call is made on the bench, and what it answers is compared
// with the recorded answer. Writes the lines that differ, by their number, and at the end how many answers were compared and how many differ.
mod acts;
mod circles;
mod damage;
mod looks;
mod nodes;
mod packs;
mod tapes;
mod told;
mod tries;
mod turns;

use crate::tapes::ROOM;
use bench_words::WORDS;
use group_lent::GROUP;
use std::io;
use std::io::Read;

const LINE: usize = 4096;

const CHUNK: usize = 4096;

// Lines read, answers compared, answers that differ; numbers said by the last call.
#[derive(Clone, Copy)]
struct Count {
    lines: u64,
    answers: u64,
    wrong: u64,
    said: usize,
}

// One more, and never more than fits.
fn more(n: u64) -> u64 {
    if n < 4294967296 {
        return n + 1;
    }
    n
}

fn differs<P: Print>(rt: &P, line: u64) -> io::Result<()> {
    println!(rt; "line {line} differs")
}

fn compared<P: Print>(
    rt: &P,
    c: Count,
    out: &[i64; ROOM],
    row: &[i64; ROOM],
    n: usize,
) -> io::Result<Count> {
    let lines = more(c.lines);
    let answers = more(c.answers);
    if tapes::same(out, c.said, row, n) {
        return Ok(Count {
            lines,
            answers,
            wrong: c.wrong,
            said: 0,
        });
    }
    differs(rt, lines)?;
    Ok(Count {
        lines,
        answers,
        wrong: more(c.wrong),
        said: 0,
    })
}

// One line more, after which so many numbers are said.
fn passed(c: Count, said: usize) -> Count {
    Count {
        lines: more(c.lines),
        answers: c.answers,
        wrong: c.wrong,
        said,
    }
}

// A whole line: a comment, a recorded answer, or a call.
fn line_done<P: Print>(
    rt: &P,
    b: &mut [u64; WORDS],
    p: &mut [u64; GROUP],
    q: &mut [u64; GROUP],
    r: &mut [u64; GROUP],
    s: &mut [u64; GROUP],
    c: Count,
    line: &[u8],
    held: usize,
    row: &mut [i64; ROOM],
    out: &mut [i64; ROOM],
) -> io::Result<Count> {
    let most = tapes::bytes_within(held, line);
    let text = &line[..most];
    let letter = first(text);
    if letter == b'#' {
        return Ok(passed(c, c.said));
    }
    let n = tapes::numbers(text, row);
    if letter == b'=' {
        return compared(rt, c, out, row, n);
    }
    let said = turns::turn(b, p, q, r, s, letter, row, n, out);
    Ok(passed(c, said))
}

fn first(s: &[u8]) -> u8 {
    if s.len() == 0 {
        return b'#';
    }
    s[0]
}

fn keep(line: &mut [u8; LINE], held: usize, c: u8) -> usize {
    if held < 4096 {
        line[held] = c;
        return held + 1;
    }
    held
}

fn ended<P: Print>(rt: &P, c: Count) -> io::Result<()> {
    println!(rt; "{} answers compared, {} differ", c.answers, c.wrong)
}

// The next bytes of standard input; how many there are.
fn fill<R: Read>(input: &mut R, chunk: &mut [u8]) -> io::Result<usize> {
    input.read(chunk)
}

// Reads standard input to its end.
fn run<P: Print, R: Read>(
    rt: &P,
    input: &mut R,
    b: &mut [u64; WORDS],
    p: &mut [u64; GROUP],
    q: &mut [u64; GROUP],
    r: &mut [u64; GROUP],
    s: &mut [u64; GROUP],
    line: &mut [u8; LINE],
    row: &mut [i64; ROOM],
    out: &mut [i64; ROOM],
    chunk: &mut [u8; CHUNK],
) -> io::Result<()> {
    let mut count = Count {
        lines: 0,
        answers: 0,
        wrong: 0,
        said: 0,
    };
    let mut held: usize = 0;
    for _ in 0..4294967296u64 {
        let n = fill(input, chunk)?;
        if n == 0 {
            break;
        }
        for &byte in chunk.iter().take(n) {
            if byte == b'\n' {
                count = line_done(rt, b, p, q, r, s, count, line, held, row, out)?;
                held = 0;
            } else {
                held = keep(line, held, byte);
            }
        }
    }
    ended(rt, count)
}

fn main(rt: HostRuntime) -> io::Result<()> {
    let mut b = [0u64; WORDS];
    let mut p = [0u64; GROUP];
    let mut q = [0u64; GROUP];
    let mut r = [0u64; GROUP];
    let mut s = [0u64; GROUP];
    let mut row = [0i64; ROOM];
    let mut out = [0i64; ROOM];
    let mut line = [0u8; LINE];
    let mut chunk = [0u8; CHUNK];
    dual_ledger::dual_ledger_set_up(&mut b, 1);
    turns::empties(&mut p, &mut q, &mut r, &mut s);
    let mut input = rt.reader();
    run(
        &rt, &mut input, &mut b, &mut p, &mut q, &mut r, &mut s, &mut line, &mut row, &mut out,
        &mut chunk,
    )
}
