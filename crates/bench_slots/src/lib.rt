#![tactic(auto)]
// The slot that a new node of an interface takes, off the interface's words and its map: no slot is read. Assumes nothing.
ghost use Rattle.std.specs.Prelude.{◌≡◌, ◌<◌};
ghost use Rattle.ledger_spec.specs.Look.{free_slot};
ghost use Rattle.bench_views.specs.Canon.{Canon};
ghost use Rattle.bench_views.specs.View.{view};

use bench_words::WORDS;

// The lowest empty slot where the interface fills, else the one after the used ones; 64 where there is no room.
pub fn free_slot(b: &[u64; WORDS], unit: usize) -> u8
    requires canon { Canon b.now }
    requires unit_bound { unit < 8 }
    ensures { result ≡ free_slot (view b.now) unit }
{
    let f = bench_words::load_interface(b, unit);
    let marks = f.marks;
    if !marks.fills {
        return f.used as u8;
    }
    let map = bench_words::load_map(b, unit);
    let found = slot_map::lowest_clear(map);
    match found {
        Some(s) => s,
        None => 64,
    }
}
