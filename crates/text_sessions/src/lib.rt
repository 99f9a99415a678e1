#![tactic(auto)]
// The text program on slices: an input that comes in chunks of any size, and the bytes of its answers. Nothing here reads or writes a file.
// However the input is cut, what is written is ledger_spec's `program` of the whole (proofs/Inputs). Assumes nothing.
ghost use Rattle.std.specs.Prelude.{◌≡◌, ◌+◌, ◌*◌, ◌≤◌, length, take};
ghost use Rattle.bench_views.specs.Fit.{SoundWords};
ghost use Rattle.text_sessions.specs.Session.{Started, FirstDone, LineDone, RestDone, ChunkDone, OpeningDone, NextDone, Finished, AllDone};

use bench_serials::HINTS;
use bench_words::WORDS;
use kinds::numbers;

// How many bytes of the line that is not ended yet are held, and how many bytes were written.
#[derive(Clone, Copy)]
pub struct Taken {
    pub held: usize,
    pub wrote: usize,
}

// Makes any words the bench that the text program starts with.
pub fn start(b: &mut [u64; WORDS])
    ensures { Started b.new }
{
    deed_trees::set_up(b, 1);
}

// Answers one line, its newline left out, at a place that has 57 bytes free; answers the place after it.
pub fn answer_line(
    b: &mut [u64; WORDS],
    line: &[u8],
    serials: &mut [u64],
    hints: &mut [u16; HINTS],
    out: &mut [u8],
    at: usize,
) -> usize
    requires { SoundWords b.old × (65 ≤ length serials.old) × (at + 57 ≤ length out.old) }
    ensures { LineDone b.old line.now b.new out.old at out.new result }
{
    let said = text_lines::read_line(line, serials);
    let r = text_calls::turn(b, said, serials, hints);
    text_answers::write_answer(out, at, r.number, r.serial, r.speed, r.sum)
}

// Answers each line that a chunk ends from a byte on, at a place that has room: 57 bytes for each byte of the chunk, passed or to come. What is held of a line
// that is not ended yet stands at the front of `buf`, `before` bytes of it already. Answers the place after the answers.
fn answer_rest(
    b: &mut [u64; WORDS],
    chunk: &[u8],
    from: usize,
    buf: &mut [u8],
    before: usize,
    serials: &mut [u64],
    hints: &mut [u16; HINTS],
    out: &mut [u8],
    written: usize,
) -> Taken
    requires { SoundWords b.old × (65 ≤ length serials.old) × (length buf.old ≡ 1024) × (before ≤ 1024) × (from ≤ length chunk.now) × (written ≤ 57 * from) × (57 * length chunk.now ≤ length out.old) }
    ensures { RestDone b.old chunk.now from (take before buf.old) out.old written b.new buf.new out.new result.held result.wrote }
{
    let mut held = before;
    let mut wrote = written;
    let mut at = from;
    // A turn goes on by the bytes of the line that it fed, so the number of turns is not known beforehand.
    while at < chunk.len() {
        let f = text_chunks::feed(chunk, at, buf, held);
        let n = f.held;
        if f.ended {
            wrote = answer_line(b, &buf[..n], serials, hints, out, wrote);
            held = 0;
            at = f.at;
        } else {
            held = n;
            at = chunk.len();
        }
    }
    Taken { held, wrote }
}

// Answers each line that a chunk ends, at the front of a slice that has room: 57 bytes for each byte of the chunk.
pub fn answer_chunk(
    b: &mut [u64; WORDS],
    chunk: &[u8],
    buf: &mut [u8],
    before: usize,
    serials: &mut [u64],
    hints: &mut [u16; HINTS],
    out: &mut [u8],
) -> Taken
    requires { SoundWords b.old × (65 ≤ length serials.old) × (length buf.old ≡ 1024) × (before ≤ 1024) × (57 * length chunk.now ≤ length out.old) }
    ensures { ChunkDone b.old chunk.now (take before buf.old) out.old b.new buf.new out.new result.held result.wrote }
{
    answer_rest(b, chunk, 0, buf, before, serials, hints, out, 0)
}

// Answers an input's first line, its newline left out, at the front of a slice: it chooses the engine, or it is a line as any other.
fn answer_first(
    b: &mut [u64; WORDS],
    line: &[u8],
    serials: &mut [u64],
    hints: &mut [u16; HINTS],
    out: &mut [u8],
) -> usize
    requires { Started b.old × (65 ≤ length serials.old) × (57 ≤ length out.old) }
    ensures { FirstDone line.now b.new out.old out.new result }
{
    match text_chunks::engine_chosen(line) {
        Some(plain) => {
            deed_trees::set_up_in(b, plain, 1);
            text_answers::write_answer(out, 0, 0, 0, 0, 0)
        }
        None => answer_line(b, line, serials, hints, out, 0),
    }
}

// Answers a chunk that begins an input, or goes on with its first line: from any words, which become the bench that the input starts with. `before` bytes of
// the first line are held already. Nothing is written exactly where the first line is not ended yet: then the next chunk opens too.
pub fn answer_opening(
    b: &mut [u64; WORDS],
    chunk: &[u8],
    buf: &mut [u8],
    before: usize,
    serials: &mut [u64],
    hints: &mut [u16; HINTS],
    out: &mut [u8],
) -> Taken
    requires { (65 ≤ length serials.old) × (length buf.old ≡ 1024) × (before ≤ 1024) × (57 * length chunk.now ≤ length out.old) }
    ensures { OpeningDone chunk.now (take before buf.old) out.old b.new buf.new out.new result.held result.wrote }
{
    start(b);
    let f = text_chunks::feed(chunk, 0, buf, before);
    let n = f.held;
    if !f.ended {
        return Taken { held: n, wrote: 0 };
    }
    let first = answer_first(b, &buf[..n], serials, hints, out);
    answer_rest(b, chunk, f.at, buf, 0, serials, hints, out, first)
}

// Answers an input's next chunk: `fresh` where its first line is not ended yet.
pub fn answer_next(
    b: &mut [u64; WORDS],
    chunk: &[u8],
    buf: &mut [u8],
    before: usize,
    fresh: bool,
    serials: &mut [u64],
    hints: &mut [u16; HINTS],
    out: &mut [u8],
) -> Taken
    requires { SoundWords b.old × (65 ≤ length serials.old) × (length buf.old ≡ 1024) × (before ≤ 1024) × (57 * length chunk.now ≤ length out.old) }
    ensures { NextDone fresh b.old chunk.now (take before buf.old) out.old b.new buf.new out.new result.held result.wrote }
{
    if fresh {
        return answer_opening(b, chunk, buf, before, serials, hints, out);
    }
    answer_chunk(b, chunk, buf, before, serials, hints, out)
}

// The input ends: a last line without newline is one LINE.
pub fn finish(held: usize, out: &mut [u8], at: usize) -> usize
    requires { at + 57 ≤ length out.old }
    ensures { Finished held out.old at out.new result }
{
    if held == 0 {
        return at;
    }
    text_answers::write_answer(out, at, numbers::LINE, 0, 0, 0)
}

// A whole input at once, from any words: its answers, byte for byte, and the bench after it.
pub fn answer_all(
    b: &mut [u64; WORDS],
    input: &[u8],
    buf: &mut [u8],
    serials: &mut [u64],
    hints: &mut [u16; HINTS],
    out: &mut [u8],
) -> usize
    requires { (65 ≤ length serials.old) × (length buf.old ≡ 1024) × (57 * length input.now + 57 ≤ length out.old) }
    ensures { AllDone input.now out.old b.new out.new result }
{
    let t = answer_opening(b, input, buf, 0, serials, hints, out);
    finish(t.held, out, t.wrote)
}
