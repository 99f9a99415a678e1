#![tactic(auto)]
// Set-up: any words at all become the empty bench, whose first node will have the serial given. 0 is no serial: WORN (15), and the bench as from serial 1.
// Assumes nothing.
ghost use Rattle.call_set_up.specs.Opened.{Opened, OpenedBy, OpenedInBy};

use bench_words::WORDS;
use kinds::numbers;

// In either engine: the plain one touches each value at every growth.
pub fn set_up_in(b: &mut [u64; WORDS], plain: bool, first: u32) -> u8
    ensures { OpenedInBy plain first result b.new }
{
    if first == 0 {
        deed_trees::set_up_in(b, plain, 1);
        return numbers::WORN;
    }
    deed_trees::set_up_in(b, plain, first);
    0
}

pub fn set_up(b: &mut [u64; WORDS], first: u32) -> u8
    ensures { OpenedBy first result b.new }
{
    set_up_in(b, false, first)
}

// The same bench, handed out whole.
pub fn new_bench(first: u32) -> [u64; WORDS]
    ensures { Opened first result }
{
    if first == 0 {
        return deed_trees::new_bench(1);
    }
    deed_trees::new_bench(first)
}
