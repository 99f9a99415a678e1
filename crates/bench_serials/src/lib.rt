#![tactic(auto)]
// The present node with a serial: by a hint that is looked at first and never trusted, else by a scan of the used slots. The hints are the
// caller's to keep and may hold anything: no answer depends on them. Assumes nothing.
ghost use Rattle.std.specs.Prelude.{◌≡◌, ◌<◌, ◌/◌, ◌%◌, set};
ghost use Rattle.ledger_spec.specs.Named.{handle_named};
ghost use Rattle.ledger_spec.specs.Lines.{named};
ghost use Rattle.bench_views.specs.Canon.{Canon};
ghost use Rattle.bench_views.specs.Fit.{Fit};
ghost use Rattle.bench_views.specs.View.{view};
ghost use Rattle.bench_serials.specs.Seek.{handle, Scans, ScansAll, Seeks, hints_after};

use bench_words::WORDS;
use kinds::{Handle, Serial};

// How many hints there are: a serial's is the one at its remainder.
pub const HINTS: usize = 512;

fn wide(x: u16) -> usize {
    x as usize
}

fn handle_at(k: usize, serial: Serial) -> Handle
    requires { k < 512 }
    ensures { handle_named result ≡ handle (k / 64) (k % 64) serial.0 }
{
    Handle {
        unit: (k / 64) as u8,
        slot: (k % 64) as u8,
        serial,
    }
}

// Looks through the used slots of an interface.
fn scan_unit(b: &[u64; WORDS], unit: usize, serial: Serial) -> Option<usize>
    requires canon { Canon b.now }
    requires unit_bound { unit < 8 }
    ensures { Scans b.now unit serial.0 result }
{
    let f = bench_words::load_interface(b, unit);
    for s in 0..f.used {
        let h = Handle {
            unit: unit as u8,
            slot: s as u8,
            serial,
        };
        if let Some(k) = bench_links::find(b, h) {
            return Some(k);
        }
    }
    None
}

// Looks through all used slots; a serial that was not given out yet is in none.
fn scan(b: &[u64; WORDS], serial: Serial) -> Option<usize>
    requires { Fit b.now }
    ensures { ScansAll b.now serial.0 result }
{
    let next = bench_words::load_next(b);
    if next <= (serial.0 as u64) {
        return None;
    }
    for u in 0..8 {
        if let Some(k) = scan_unit(b, u, serial) {
            return Some(k);
        }
    }
    None
}

// Looks at position k first.
fn look(b: &[u64; WORDS], serial: Serial, k: usize) -> Option<usize>
    requires fit { Fit b.now }
    requires k_bound { k < 512 }
    ensures { Seeks b.now serial.0 result }
{
    if let Some(p) = bench_links::find(b, handle_at(k, serial)) {
        return Some(p);
    }
    scan(b, serial)
}

// The position of the present node with a serial. What is found is the next hint.
pub fn seek(b: &[u64; WORDS], serial: Serial, hints: &mut [u16; HINTS]) -> Option<usize>
    requires { Fit b.now }
    ensures seeks { Seeks b.now serial.0 result }
    ensures hints_after { hints.new ≡ hints_after hints.old serial.0 result }
{
    let i = (serial.0 % 512) as usize;
    let p = look(b, serial, wide(hints[i]) % 512)?;
    hints[i] = p as u16;
    Some(p)
}

// Hints that a node made with this serial stands at position k.
pub fn remember(hints: &mut [u16; HINTS], serial: Serial, k: usize)
    ensures { hints.new ≡ set hints.old (serial.0 % 512) (k % 512) }
{
    let at = (serial.0 % 512) as usize;
    hints[at] = (k % 512) as u16;
}

// The same as a handle: one of interface 8 where no node has the serial.
pub fn named(b: &[u64; WORDS], serial: Serial, hints: &mut [u16; HINTS]) -> Handle
    requires { Fit b.now }
    ensures { handle_named result ≡ named (view b.now) serial.0 }
{
    match seek(b, serial, hints) {
        Some(k) => handle_at(k, serial),
        None => Handle {
            unit: 8,
            slot: 0,
            serial,
        },
    }
}
