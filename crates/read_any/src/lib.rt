#![tactic(auto)]
// The public reads: any words at all may be lent, with any handle, number and slice. The words are tested once; where they hold no sound bench the answer
// is BROKEN (2) without a value; else the read on sound words answers. None changes the bench. Assumes nothing.
ghost use Rattle.std.specs.Prelude.{◌≡◌, false, pos};
ghost use Rattle.ledger_spec.specs.Named.{handle_named};
ghost use Rattle.bench_views.specs.View.{view};
ghost use Rattle.read_sound.specs.Shown.{shown_weight, shown_count, shown_belongs, shown_node, shown_ancestor, shown_second, shown_vertex, shown_vertices};
ghost use Rattle.read_marks.specs.Shown.{shown_mark};
ghost use Rattle.sound_lent.specs.Verdict.{read_words};
ghost use Rattle.ledger_spec.specs.Answers.{sum_read, speed_read, count_read, fills_read, floored_read, index_read, belongs_read, value_read, outer_read, below_read, first_read, vertices_read};

use bench_words::WORDS;
use kinds::{Handle, NodeIndex, Vertex, numbers};
use read_marks::Marked;
use read_sound::{Ancestor, Belongs, Counted, Indexed, Represented, Second, Weighed};

// BROKEN, without a value.
fn no_weight() -> Weighed
    ensures { shown_weight result ≡ (2, pos 0) }
{
    Weighed {
        number: numbers::BROKEN,
        weight: 0,
    }
}

fn no_count() -> Counted
    ensures { shown_count result ≡ (2, 0) }
{
    Counted {
        number: numbers::BROKEN,
        count: 0,
    }
}

fn no_mark() -> Marked
    ensures { shown_mark result ≡ (2, false) }
{
    Marked {
        number: numbers::BROKEN,
        marked: false,
    }
}

pub fn sum_dual_variables(b: &[u64; WORDS], unit: u8) -> Weighed
    ensures { shown_weight result ≡ read_words b.now (sum_read (view b.now) unit) }
{
    if !sound_lent::is_bench(b) {
        return no_weight();
    }
    read_sound::sum_dual_variables(b, unit)
}

pub fn sum_grow_speed(b: &[u64; WORDS], unit: u8) -> Weighed
    ensures { shown_weight result ≡ read_words b.now (speed_read (view b.now) unit) }
{
    if !sound_lent::is_bench(b) {
        return no_weight();
    }
    read_sound::sum_grow_speed(b, unit)
}

// How many slots the tree has, used or emptied.
pub fn nodes_count(b: &[u64; WORDS], unit: u8) -> Counted
    ensures { shown_count result ≡ read_words b.now (count_read (view b.now) unit) }
{
    if !sound_lent::is_bench(b) {
        return no_count();
    }
    read_sound::nodes_count(b, unit)
}

// Whether the interface gives a new node its lowest empty slot.
pub fn is_filling(b: &[u64; WORDS], unit: u8) -> Marked
    ensures { shown_mark result ≡ read_words b.now (fills_read (view b.now) unit) }
{
    if !sound_lent::is_bench(b) {
        return no_mark();
    }
    read_marks::is_filling(b, unit)
}

// Whether no value of the interface's tree may fall below 0.
pub fn is_floored(b: &[u64; WORDS], unit: u8) -> Marked
    ensures { shown_mark result ≡ read_words b.now (floored_read (view b.now) unit) }
{
    if !sound_lent::is_bench(b) {
        return no_mark();
    }
    read_marks::is_floored(b, unit)
}

// The handle at an index of the tree, nothing if its slot was emptied, RANGE (18) at or past the count.
pub fn get_node(b: &[u64; WORDS], unit: u8, index: NodeIndex) -> Indexed
    ensures { shown_node result ≡ read_words b.now (index_read (view b.now) unit index.0) }
{
    if !sound_lent::is_bench(b) {
        return Indexed {
            number: numbers::BROKEN,
            node: None,
        };
    }
    read_sound::get_node(b, unit, index)
}

// Whether a node stands in the interface's tree: no in place of STALE and FOREIGN.
pub fn check_ptr_belonging(b: &[u64; WORDS], unit: u8, h: Handle) -> Belongs
    ensures { shown_belongs result ≡ read_words b.now (belongs_read (view b.now) unit (handle_named h)) }
{
    if !sound_lent::is_bench(b) {
        return Belongs {
            number: numbers::BROKEN,
            inside: false,
        };
    }
    read_sound::check_ptr_belonging(b, unit, h)
}

pub fn get_dual_variable(b: &[u64; WORDS], h: Handle) -> Weighed
    ensures { shown_weight result ≡ read_words b.now (value_read (view b.now) (handle_named h)) }
{
    if !sound_lent::is_bench(b) {
        return no_weight();
    }
    read_sound::get_dual_variable(b, h)
}

// The outermost blossom of a node, a node without a parent being its own, and how many links lead to it.
pub fn get_ancestor_blossom(b: &[u64; WORDS], h: Handle) -> Ancestor
    ensures { shown_ancestor result ≡ read_words b.now (outer_read (view b.now) (handle_named h)) }
{
    if !sound_lent::is_bench(b) {
        return Ancestor {
            number: numbers::BROKEN,
            node: Handle::nobody(),
            links: 0,
        };
    }
    read_sound::get_ancestor_blossom(b, h)
}

// The node below the outermost blossom, TOP (12) of a node without a parent.
pub fn get_secondary_ancestor_blossom(b: &[u64; WORDS], h: Handle) -> Second
    ensures { shown_second result ≡ read_words b.now (below_read (view b.now) (handle_named h)) }
{
    if !sound_lent::is_bench(b) {
        return Second {
            number: numbers::BROKEN,
            node: Handle::nobody(),
        };
    }
    read_sound::get_secondary_ancestor_blossom(b, h)
}

// The first vertex under a node.
pub fn get_representative_vertex(b: &[u64; WORDS], h: Handle) -> Represented
    ensures { shown_vertex result ≡ read_words b.now (first_read (view b.now) (handle_named h)) }
{
    if !sound_lent::is_bench(b) {
        return Represented {
            number: numbers::BROKEN,
            vertex: Vertex(0),
        };
    }
    read_sound::get_representative_vertex(b, h)
}

// All vertices under a node, depth first in circle order, into the front of a slice; SMALL (19) where it is shorter than the defect size. Entries past
// the vertices stay as they are.
pub fn get_all_vertices(b: &[u64; WORDS], h: Handle, out: &mut [u32]) -> Counted
    ensures { shown_vertices result out.new ≡ read_words b.now (vertices_read (view b.now) (handle_named h) out.old) }
{
    if !sound_lent::is_bench(b) {
        return no_count();
    }
    read_sound::get_all_vertices(b, h, out)
}
