#![tactic(auto)]
// The reads of docs/MANUAL.md, Reads, on words that hold a sound bench: each answers its refusal number, and a value where that is 0. None changes the bench.
// A read of an interface is refused by UNIT (3) or CHILD (4), a read of a node by STALE (8). Assumes nothing.
ghost use Rattle.std.specs.Prelude.{◌≡◌, ◌<◌, ◌/◌, ◌%◌};
ghost use Rattle.bench_words.specs.Store.{interface_at};
ghost use Rattle.ledger_spec.specs.Look.{slot_of};
ghost use Rattle.ledger_spec.specs.Named.{handle_named};
ghost use Rattle.ledger_spec.specs.Tests.{first};
ghost use Rattle.ledger_spec.specs.Refuse.{unit_tests};
ghost use Rattle.ledger_spec.specs.Reads.{as_handle, sum_of, speed_of, count_of, handle_at_index, value_of, belongs};
ghost use Rattle.ledger_spec.specs.Walk.{outer_of, below_of, first_vertex, vertices_into};
ghost use Rattle.bench_views.specs.Fit.{Fit};
ghost use Rattle.bench_views.specs.View.{view};
ghost use Rattle.read_sound.specs.Shown.{maybe, shown_weight, shown_count, shown_belongs, shown_node, shown_ancestor, shown_second, shown_vertex, shown_vertices};

use bench_words::WORDS;
use kinds::{Handle, NodeIndex, Vertex, numbers};

#[derive(Clone, Copy)]
pub struct Weighed {
    pub number: u8,
    pub weight: i64,
}

#[derive(Clone, Copy)]
pub struct Counted {
    pub number: u8,
    pub count: u64,
}

// A number and whether the node stands in the interface's tree.
#[derive(Clone, Copy)]
pub struct Belongs {
    pub number: u8,
    pub inside: bool,
}

// A number and the node at an index, or nothing where its slot was emptied.
#[derive(Clone, Copy)]
pub struct Indexed {
    pub number: u8,
    pub node: Option<Handle>,
}

// A number, the outermost blossom, and the links followed to it.
#[derive(Clone, Copy)]
pub struct Ancestor {
    pub number: u8,
    pub node: Handle,
    pub links: u64,
}

// A number and the node below the outermost blossom.
#[derive(Clone, Copy)]
pub struct Second {
    pub number: u8,
    pub node: Handle,
}

#[derive(Clone, Copy)]
pub struct Represented {
    pub number: u8,
    pub vertex: Vertex,
}

// UNIT, CHILD or 0: what a call that names one interface may be refused by first.
pub fn unit_number(b: &[u64; WORDS], unit: u8) -> u8
    ensures { result ≡ first (unit_tests (view b.now) unit) }
{
    if 8 <= unit {
        return numbers::UNIT;
    }
    match bench_words::load_interface(b, unit as usize).parent {
        Some(_) => numbers::CHILD,
        None => 0,
    }
}

pub fn sum_dual_variables(b: &[u64; WORDS], unit: u8) -> Weighed
    requires { Fit b.now }
    ensures { shown_weight result ≡ sum_of (view b.now) unit }
{
    let number = unit_number(b, unit);
    if number != 0 {
        return Weighed { number, weight: 0 };
    }
    Weighed {
        number: 0,
        weight: bench_links::sum(b, unit as usize),
    }
}

pub fn sum_grow_speed(b: &[u64; WORDS], unit: u8) -> Weighed
    requires { Fit b.now }
    ensures { shown_weight result ≡ speed_of (view b.now) unit }
{
    let number = unit_number(b, unit);
    if number != 0 {
        return Weighed { number, weight: 0 };
    }
    Weighed {
        number: 0,
        weight: bench_links::speed(b, unit as usize),
    }
}

// How many slots the tree has, used or emptied.
pub fn nodes_count(b: &[u64; WORDS], unit: u8) -> Counted
    requires { Fit b.now }
    ensures { shown_count result ≡ count_of (view b.now) unit }
{
    let number = unit_number(b, unit);
    if number != 0 {
        return Counted { number, count: 0 };
    }
    Counted {
        number: 0,
        count: bench_orders::count(b, unit as usize),
    }
}

// The node whose value is asked: STALE, or its value.
pub fn get_dual_variable(b: &[u64; WORDS], h: Handle) -> Weighed
    requires { Fit b.now }
    ensures { shown_weight result ≡ value_of (view b.now) (handle_named h) }
{
    match bench_links::find(b, h) {
        None => Weighed {
            number: numbers::STALE,
            weight: 0,
        },
        Some(_) => Weighed {
            number: 0,
            weight: bench_links::value(b, h),
        },
    }
}

// What stands in a used slot, as a handle.
fn node_at(b: &[u64; WORDS], k: usize) -> Option<Handle>
    requires k_bound { k / 64 < 8 }
    requires k_bound_2 { k % 64 < (interface_at b.now (k / 64)).used }
    ensures { maybe result ≡ as_handle (k / 64, k % 64, slot_of (view b.now) (k / 64) (k % 64)) }
{
    let n = bench_words::load_node(b, k);
    if bench_links::is_absent(n.class) {
        return None;
    }
    Some(Handle {
        unit: (k / 64) as u8,
        slot: (k % 64) as u8,
        serial: n.serial,
    })
}

// The handle at an index of the tree, nothing if its slot was emptied, RANGE (18) at or past the count.
pub fn get_node(b: &[u64; WORDS], unit: u8, index: NodeIndex) -> Indexed
    requires { Fit b.now }
    ensures { shown_node result ≡ handle_at_index (view b.now) unit index.0 }
{
    let number = unit_number(b, unit);
    if number != 0 {
        return Indexed { number, node: None };
    }
    match bench_orders::locate(b, unit as usize, index.0 as usize) {
        None => Indexed {
            number: numbers::RANGE,
            node: None,
        },
        Some(k) => Indexed {
            number: 0,
            node: node_at(b, k),
        },
    }
}

// Whether a node stands in the interface's tree: no in place of STALE and FOREIGN.
pub fn check_ptr_belonging(b: &[u64; WORDS], unit: u8, h: Handle) -> Belongs
    requires { Fit b.now }
    ensures { shown_belongs result ≡ belongs (view b.now) unit (handle_named h) }
{
    let number = unit_number(b, unit);
    if number != 0 {
        return Belongs {
            number,
            inside: false,
        };
    }
    match bench_links::find(b, h) {
        None => Belongs {
            number: 0,
            inside: false,
        },
        Some(_) => Belongs {
            number: 0,
            inside: !bench_links::is_foreign(b, unit, h),
        },
    }
}

// The outermost blossom of a node, a node without a parent being its own, and how many links lead to it.
pub fn get_ancestor_blossom(b: &[u64; WORDS], h: Handle) -> Ancestor
    requires { Fit b.now }
    ensures { shown_ancestor result ≡ outer_of (view b.now) (handle_named h) }
{
    match bench_links::find(b, h) {
        None => Ancestor {
            number: numbers::STALE,
            node: Handle::nobody(),
            links: 0,
        },
        Some(_) => {
            let o = bench_links::outermost(b, h);
            Ancestor {
                number: 0,
                node: o.node,
                links: o.links,
            }
        }
    }
}

// The node below the outermost blossom, TOP (12) of a node without a parent.
pub fn get_secondary_ancestor_blossom(b: &[u64; WORDS], h: Handle) -> Second
    requires { Fit b.now }
    ensures { shown_second result ≡ below_of (view b.now) (handle_named h) }
{
    match bench_links::find(b, h) {
        None => Second {
            number: numbers::STALE,
            node: Handle::nobody(),
        },
        Some(_) => {
            let o = bench_links::outermost(b, h);
            if o.links == 0 {
                return Second {
                    number: numbers::TOP,
                    node: Handle::nobody(),
                };
            }
            Second {
                number: 0,
                node: o.under,
            }
        }
    }
}

// The first vertex under a node.
pub fn get_representative_vertex(b: &[u64; WORDS], h: Handle) -> Represented
    requires { Fit b.now }
    ensures { shown_vertex result ≡ first_vertex (view b.now) (handle_named h) }
{
    match bench_links::find(b, h) {
        None => Represented {
            number: numbers::STALE,
            vertex: Vertex(0),
        },
        Some(k) => Represented {
            number: 0,
            vertex: bench_vertices::first_vertex(b, k),
        },
    }
}

// All vertices under a node, depth first in circle order, into the front of a slice, whose rest stays; SMALL (19) where it is shorter than the defect size.
pub fn get_all_vertices(b: &[u64; WORDS], h: Handle, out: &mut [u32]) -> Counted
    requires { Fit b.now }
    ensures { shown_vertices result out.new ≡ vertices_into (view b.now) (handle_named h) out.old }
{
    match bench_links::find(b, h) {
        None => Counted {
            number: numbers::STALE,
            count: 0,
        },
        Some(k) => {
            let n = bench_words::load_node(b, k);
            if (out.len() as u64) < n.size {
                return Counted {
                    number: numbers::SMALL,
                    count: 0,
                };
            }
            let count = bench_vertices::all_vertices(b, k, out, 0) as u64;
            Counted { number: 0, count }
        }
    }
}
