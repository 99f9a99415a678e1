#![tactic(auto)]
// The text program at its two ends: standard input in pieces, and each piece's answers to standard output as soon as it has been answered.
// What the bytes are is crate text_sessions'; here is only reading and writing, of which no contract can speak. Assumes nothing.
ghost use Rattle.std.specs.Prelude.{◌≤◌, length};
ghost use Rattle.text_console.specs.Serving.{Ready, Served};

use bench_serials::HINTS;
use bench_words::WORDS;
use std::io;
use std::io::Read;

// Bytes of input in a piece; 57 bytes of answers for each.
const PIECE: usize = 4096;

const ROOM: usize = 233472;

// How the run goes on: so many bytes of a line are held, and is it the first line; the input has ended; or reading or writing failed.
#[derive(Clone, Copy)]
pub enum Next {
    More(usize, bool),
    Ended,
    Failed,
}

// Says on standard error which stream failed and how; where that cannot be written, nothing is said.
fn fail<E: Eprint>(rt: &E, what: &str, error: io::Error) {
    let _ = eprintln!(rt; "{what}: {error}");
}

// Writes all of it, or says on standard error that it could not.
fn send<P: Print + Eprint>(rt: &P, out: &[u8]) -> bool {
    match rt.write_all(out) {
        Ok(()) => true,
        Err(error) => {
            fail(rt, "standard output", error);
            false
        }
    }
}

// Reads a piece, answers it and writes the answers.
fn step<P: Print + Eprint, R: Read>(
    rt: &P,
    input: &mut R,
    b: &mut [u64; WORDS],
    piece: &mut [u8],
    buf: &mut [u8],
    held: usize,
    fresh: bool,
    serials: &mut [u64],
    hints: &mut [u16; HINTS],
    out: &mut [u8],
) -> Next
    requires { Ready b.old piece.old buf.old held serials.old out.old }
    ensures { Served b.new result }
{
    let n = match input.read(piece) {
        Ok(n) => n,
        Err(error) => {
            fail(rt, "standard input", error);
            return Next::Failed;
        }
    };
    if n == 0 {
        return Next::Ended;
    }
    let taken = text_sessions::answer_next(b, &piece[..n], buf, held, fresh, serials, hints, out);
    let wrote = taken.wrote;
    if send(rt, &out[..wrote]) {
        return Next::More(taken.held, fresh & (wrote == 0));
    }
    Next::Failed
}

// The input has ended.
fn end<P: Print + Eprint>(rt: &P, held: usize, out: &mut [u8])
    requires { 57 ≤ length out.old }
{
    let n = text_sessions::finish(held, out, 0);
    send(rt, &out[..n]);
}

// A proved loop has to end, and nothing says that an input does: it counts its pieces, up to a number that no input has.
fn serve<P: Print + Eprint, R: Read>(
    rt: &P,
    input: &mut R,
    b: &mut [u64; WORDS],
    piece: &mut [u8],
    buf: &mut [u8],
    serials: &mut [u64],
    hints: &mut [u16; HINTS],
    out: &mut [u8],
)
    requires { Ready b.old piece.old buf.old 0 serials.old out.old × (57 ≤ length out.old) }
{
    let mut held: usize = 0;
    let mut fresh = true;
    for _ in 0..u64::MAX {
        let next = step(rt, input, b, piece, buf, held, fresh, serials, hints, out);
        match next {
            Next::More(h, f) => {
                held = h;
                fresh = f;
            }
            Next::Ended => {
                end(rt, held, out);
                return;
            }
            Next::Failed => {
                return;
            }
        }
    }
}

// The text program.
pub fn run<S: Input + Print + Eprint>(rt: &S) {
    let mut input = rt.reader();
    let mut b: [u64; WORDS] = [0; WORDS];
    let mut piece: [u8; PIECE] = [0; PIECE];
    let mut buf: [u8; 1024] = [0; 1024];
    let mut serials: [u64; text_calls::MOST] = [0; text_calls::MOST];
    let mut hints: [u16; HINTS] = [0; HINTS];
    let mut out: [u8; ROOM] = [0; ROOM];
    text_sessions::start(&mut b);
    serve(
        rt,
        &mut input,
        &mut b,
        &mut piece,
        &mut buf,
        &mut serials,
        &mut hints,
        &mut out,
    );
}
