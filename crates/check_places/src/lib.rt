#![tactic(auto)]
// The slots of a tree in the order of the index, listed once as positions, so that a walk along them costs a step a slot and no search.
// Only the lent list is written. Assumes nothing.
ghost use Rattle.std.specs.Prelude.{◌≡◌, ◌+◌, ◌<◌, ◌≤◌, length};
ghost use Rattle.ledger_spec.specs.Look.{interface};
ghost use Rattle.bench_views.specs.Fit.{Fit};
ghost use Rattle.bench_views.specs.View.{view};
ghost use Rattle.check_places.specs.Places.{Filled, Places};

use bench_words::WORDS;

// As many as the slots of eight interfaces.
pub const SLOTS: usize = 512;

// Writes `from`, `from + 1` and on, `many` of them, after the first `n`; answers how many stand there then.
fn fill(out: &mut [usize; SLOTS], n: usize, from: usize, many: usize) -> usize
    requires out_len { length out.old ≡ 512 }
    requires many_bound { n + many ≤ 512 }
    requires many_bound_2 { from + many ≤ 512 }
    ensures { Filled out.old n from many out.new result }
{
    for j in 0..many {
        out[n + j] = from + j;
    }
    n + many
}

// Writes the positions of a tree's slots, used or emptied, by index, and answers how many there are.
pub fn list(b: &[u64; WORDS], unit: usize, out: &mut [usize; SLOTS]) -> usize
    requires fit { Fit b.now }
    requires unit_bound { unit < 8 }
    requires unit_value { (interface (view b.now) unit).parent ≡ None }
    requires out_len { length out.old ≡ 512 }
    ensures { Places b.now unit out.new result }
{
    let o = bench_orders::order_of(b, unit);
    let mut n: usize = 0;
    for u in &o.units[..o.count] {
        let f = bench_words::load_interface(b, *u);
        n = fill(out, n, *u * 64, f.used as usize);
    }
    n
}
