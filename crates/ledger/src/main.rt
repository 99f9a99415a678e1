#![tactic(auto)]
// The text program (docs/MANUAL.md): calls in lines on standard input, a line of four numbers for each on standard output. It takes --help and --version; with
// any other argument it says so on standard error and reads nothing.
use std::env::{Env, FillError};

const WORD: usize = 16;

fn is_help(word: &[u8; WORD], n: usize) -> bool {
    n == 6
        && word[0] == b'-'
        && word[1] == b'-'
        && word[2] == b'h'
        && word[3] == b'e'
        && word[4] == b'l'
        && word[5] == b'p'
}

fn is_version(word: &[u8; WORD], n: usize) -> bool {
    n == 9
        && word[0] == b'-'
        && word[1] == b'-'
        && word[2] == b'v'
        && word[3] == b'e'
        && word[4] == b'r'
        && word[5] == b's'
        && word[6] == b'i'
        && word[7] == b'o'
        && word[8] == b'n'
}

// Says it on standard output, or on standard error that it could not.
fn say<P: Print + Eprint>(rt: &P, text: &[u8]) {
    if let Err(error) = rt.write_all(text) {
        let _ = eprintln!(rt; "standard output: {error}");
    }
}

fn help<P: Print + Eprint>(rt: &P) {
    say(
        rt,
        b"ledger: reads a record from standard input, writes a line of four numbers for each of its lines.\n",
    );
    say(
        rt,
        b"The lines: D unit vertex, B unit serial.., E unit serial, S unit serial state, G unit length,\n",
    );
    say(
        rt,
        b"F parent left right, C unit, K unit; the first may be M 1 or M 0, the plain or the lazy engine.\n",
    );
    say(
        rt,
        b"The numbers: number, serial, speed, sum. docs/MANUAL.md says what they mean.\n",
    );
    say(
        rt,
        b"It has no exit status: a script uses 'dual-ledger check'.\n",
    );
    say(rt, b"ledger --help, ledger --version\n");
}

// Whether the program was started with an argument at a place; its own name is at 0.
fn has_argument<E: Env>(rt: &E, i: usize) -> bool {
    match rt.arg(i, &mut [0; WORD]) {
        Err(FillError::NotPresent) => false,
        _ => true,
    }
}

// The program was started with words after its name.
fn with_arguments<S: Env + Print + Eprint>(rt: &S) {
    let mut word: [u8; WORD] = [0; WORD];
    let n = rt.arg(1, &mut word).unwrap_or(0);
    let alone = !has_argument(rt, 2);
    if alone && is_help(&word, n) {
        return help(rt);
    }
    if alone && is_version(&word, n) {
        return say(rt, b"ledger 0.2.0\n");
    }
    let _ = eprintln!(rt;
        "ledger: no arguments but --help and --version; a record is read from standard input"
    );
}

fn main(rt: HostRuntime) {
    if has_argument(&rt, 1) {
        return with_arguments(&rt);
    }
    text_console::run(&rt);
}
