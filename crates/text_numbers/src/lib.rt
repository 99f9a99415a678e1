#![tactic(auto)]
// A line's four numbers: number, serial, and the interface's speed and sum as they stand after the call. Everything here only reads. Assumes nothing.
ghost use Rattle.std.specs.Prelude.{◌≡◌, pos};
ghost use Rattle.ledger_spec.specs.Lines.{shown};
ghost use Rattle.bench_views.specs.Fit.{SoundWords};
ghost use Rattle.bench_views.specs.View.{view};
ghost use Rattle.text_numbers.specs.Numbers.{numbers_of};

use bench_words::WORDS;

#[derive(Clone, Copy)]
pub struct Reply {
    pub number: u8,
    pub serial: u32,
    pub speed: i64,
    pub sum: i64,
}

// An answer that shows no interface: speed and sum are both 0.
pub fn silent(number: u8, serial: u32) -> Reply
    ensures { numbers_of result ≡ (number, serial, pos 0, pos 0) }
{
    Reply {
        number,
        serial,
        speed: 0,
        sum: 0,
    }
}

// An answer that shows the interface that the line names, unless UNIT (3) was answered or it has a parent.
pub fn show(b: &[u64; WORDS], unit: u8, number: u8, serial: u32) -> Reply
    requires { SoundWords b.now }
    ensures { numbers_of result ≡ shown number serial (view b.now) unit }
{
    if number == 3 {
        return silent(number, serial);
    }
    let closed = read_sound::unit_number(b, unit);
    if closed != 0 {
        return silent(number, serial);
    }
    let u = unit as usize;
    let speed = bench_links::speed(b, u);
    let sum = bench_links::sum(b, u);
    Reply {
        number,
        serial,
        speed,
        sum,
    }
}
