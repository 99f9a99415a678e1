#![tactic(auto)]
// The work of fuse, clear and set-up, over the words that the caller lends, against the plain ledger's own definitions. A fuse touches no node; a
// clear touches the slots used in its tree. No refusal is left: each asks that its tests pass on words that fit. Assumes nothing.
ghost use Rattle.std.specs.Prelude.{◌≡◌, ℕ, ◌+◌, ◌*◌, ◌<◌, ◌≤◌, length, get_or};
ghost use Rattle.bench_words.specs.Store.{interface_at, store_interface, no_interface};
ghost use Rattle.ledger_spec.specs.Bench.{set_up, set_up_in};
ghost use Rattle.ledger_spec.specs.Tests.{first as number_of};
ghost use Rattle.ledger_spec.specs.Refuse.{fuse_tests, unit_tests};
ghost use Rattle.ledger_spec.specs.Deeds.{join as joined, wipe as wiped};
ghost use Rattle.bench_views.specs.Records.{Steady};
ghost use Rattle.bench_views.specs.View.{view};
ghost use Rattle.bench_views.specs.Canon.{Coded};
ghost use Rattle.bench_views.specs.Fit.{Fit, Done};
ghost use Rattle.deed_trees.specs.Empty.{with_up, Emptied, Reset};

use bench_words::{Interface, Marks, WORDS};

// An interface as set-up leaves it, in either engine.
fn no_interface(plain: bool) -> Interface
    ensures { result ≡ no_interface plain }
{
    Interface {
        used: 0,
        progress: 0,
        sum: Interface::OFFSET,
        speed: 1024,
        parent: None,
        left: 0,
        right: 0,
        marks: Marks {
            fills: false,
            floored: false,
            plain,
        },
    }
}

// Puts an interface under a parent.
fn put_under(b: &mut [u64; WORDS], unit: usize, parent: usize)
    requires { (unit < 8) × (parent < 8) }
    ensures { b.new ≡ store_interface b.old unit (with_up (interface_at b.old unit) parent) }
{
    let f = bench_words::load_interface(b, unit);
    let marks = f.marks;
    bench_words::store_interface(
        b,
        unit,
        Interface {
            used: f.used,
            progress: f.progress,
            sum: f.sum,
            speed: f.speed,
            parent: Some(parent as u8),
            left: f.left,
            right: f.right,
            marks,
        },
    );
}

// Fuses two interfaces under a parent, which gets both sums and both speeds, and is floored as its halves are. Each of the three keeps its way to fill.
pub fn join(b: &mut [u64; WORDS], parent: usize, left: usize, right: usize)
    requires { Fit b.old × (number_of (fuse_tests (view b.old) parent left right) ≡ 0) }
    ensures { Done b.new (joined (view b.old) parent left right) }
{
    let l = bench_words::load_interface(b, left);
    let r = bench_words::load_interface(b, right);
    let p = bench_words::load_interface(b, parent);
    let own = p.marks;
    let half = l.marks;
    put_under(b, left, parent);
    put_under(b, right, parent);
    bench_words::store_interface(
        b,
        parent,
        Interface {
            used: 0,
            progress: 0,
            sum: l.sum + r.sum - Interface::OFFSET,
            speed: l.speed + r.speed - 1024,
            parent: None,
            left: (left as u64) + 1,
            right: (right as u64) + 1,
            marks: Marks {
                fills: own.fills,
                floored: half.floored,
                plain: own.plain,
            },
        },
    );
}

// Empties the first slots of an interface.
fn empty_slots(b: &mut [u64; WORDS], unit: usize, used: usize)
    requires { (unit < 8) × (used ≤ 64) × Steady b.old × Coded b.old }
    ensures { Emptied b.old unit b.new used }
{
    for s in 0..used {
        bench_words::store_node(b, unit * 64 + s, deed_nodes::no_node());
    }
}

// Empties an interface, its used slots, its map and its marks; the engine stays.
fn reset(b: &mut [u64; WORDS], unit: usize)
    requires { (unit < 8) × Steady b.old × Coded b.old }
    ensures { Reset b.old unit b.new }
{
    let f = bench_words::load_interface(b, unit);
    empty_slots(b, unit, f.used as usize);
    bench_words::store_map(b, unit, 0);
    bench_words::store_interface(b, unit, no_interface(f.marks.plain));
}

// Clears a tree at its top, which is reset last. Parents have higher numbers, so each climb goes over interfaces that are not reset yet, and none above the top is
// of its tree.
pub fn wipe(b: &mut [u64; WORDS], unit: usize)
    requires { Fit b.old × (number_of (unit_tests (view b.old) unit) ≡ 0) }
    ensures { Done b.new (wiped (view b.old) unit) }
{
    for w in 0..unit {
        let up = bench_trees::climb(b, w);
        if up.top == unit {
            reset(b, w);
        }
    }
    reset(b, unit);
}

// All words are zero.
fn erase(b: &mut [u64; WORDS])
    requires { length b.old ≡ 6273 }
    ensures { (length b.new ≡ 6273) × ((m : ℕ) → get_or b.new m 0 ≡ 0) }
{
    b.fill(0);
}

// Makes any words the empty bench of an engine, whose first node will have serial `first`.
pub fn set_up_in(b: &mut [u64; WORDS], plain: bool, first: u32)
    ensures { Done b.new (set_up_in plain first) }
{
    bench_words::full(b);
    erase(b);
    for u in 0..8 {
        bench_words::store_interface(b, u, no_interface(plain));
    }
    bench_words::store_next(b, first as u64);
}

// The same in the lazy engine.
pub fn set_up(b: &mut [u64; WORDS], first: u32)
    ensures { Done b.new (set_up first) }
{
    set_up_in(b, false, first);
}

// The empty bench, handed out whole.
pub fn new_bench(first: u32) -> [u64; WORDS]
    ensures { Done result (set_up first) }
{
    let mut b: [u64; WORDS] = [0; WORDS];
    set_up(&mut b, first);
    b
}
