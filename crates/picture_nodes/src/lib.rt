#![tactic(auto)]
// The slots of a tree in a picture, by index: null for an emptied one, or a node with its keys in the order of the original's `snapshot`. Only the lent bytes
// are written. Assumes nothing.
ghost use Rattle.std.specs.Prelude.{◌≡◌, map, get_or, ◌<◌};
ghost use Rattle.kinds.specs.declared.Class.TheVariants.{Blossom};
ghost use Rattle.ledger_spec.specs.Named.{state_named, parent_named};
ghost use Rattle.ledger_spec.specs.Reads.{slots_of};
ghost use Rattle.bench_words.specs.Store.{node_at};
ghost use Rattle.bench_views.specs.Fit.{Fit};
ghost use Rattle.bench_views.specs.View.{view, circle_of};
ghost use Rattle.bench_vertices.specs.Under.{Placed};
ghost use Rattle.bench_orders.specs.Order.{AtIndex};
ghost use Rattle.check_places.specs.Places.{Places};
ghost use Rattle.picture_spec.specs.Sketch.{circle, linked, indexed, index_of, slot_seen_by};
ghost use Rattle.picture_spec.specs.Text.{names_by, parent_text, array, slot_text};
ghost use Rattle.picture_pieces.specs.Drawn.{Drawn};
ghost use Rattle.picture_indices.specs.Indices.{Indices};
ghost use Rattle.picture_nodes.specs.Rest.{Lowly, shape_text, rest_text};

use bench_words::WORDS;
use kinds::{Class, GrowState, Handle};
use picture_pieces::{put, put_comma, put_either, put_number};

fn put_parent(
    b: &[u64; WORDS],
    unit: usize,
    index: &[u64; 512],
    out: &mut [u8],
    at: usize,
    parent: Option<Handle>,
) -> usize
    requires indices { Indices b.now unit index.now }
    requires lowly { Lowly parent }
    ensures { Drawn out.old at (parent_text (indexed (index_of (view b.now) unit) (parent_named parent))) out.new result }
{
    match parent {
        None => put(out, at, b"null"),
        Some(h) => put_number(out, at, picture_circles::index_of(b, unit, index, h)),
    }
}

// The keys that every node has: state, growth and parent, and the end of the node.
fn put_rest(
    b: &[u64; WORDS],
    unit: usize,
    index: &[u64; 512],
    out: &mut [u8],
    at: usize,
    state: GrowState,
    parent: Option<Handle>,
    short: bool,
) -> usize
    requires indices { Indices b.now unit index.now }
    requires lowly { Lowly parent }
    ensures { Drawn out.old at (rest_text (names_by short) (state_named state) (indexed (index_of (view b.now) unit) (parent_named parent))) out.new result }
{
    let p = put_either(out, at, short, b",\"g\":", b",\"grow_state\":");
    let q = picture_names::put_state(out, p, state);
    let r = put_either(out, q, short, b",\"u\":", b",\"unit_growth\":");
    let s = picture_names::put_growth(out, r, state);
    let t = put_either(out, s, short, b",\"p\":", b",\"parent_blossom\":");
    let u = put_parent(b, unit, index, out, t, parent);
    put(out, u, b"}")
}

// The keys that go by a blossom's circle: its members, those that they touch by, and no vertex.
fn put_ring(
    b: &[u64; WORDS],
    unit: usize,
    index: &[u64; 512],
    out: &mut [u8],
    at: usize,
    p: usize,
    short: bool,
) -> usize
    requires fit { Fit b.now }
    requires indices { Indices b.now unit index.now }
    requires placed { Placed b.now p }
    requires p_value { (node_at b.now p).class ≡ Blossom }
    ensures { Drawn out.old at (shape_text (names_by short) (circle (map (linked (index_of (view b.now) unit)) (circle_of (node_at b.now) p)))) out.new result }
{
    let q = put_either(out, at, short, b"{\"o\":", b"{\"blossom\":");
    let r = picture_circles::put_circle(b, unit, index, out, q, p, false);
    let s = put_either(out, r, short, b",\"t\":", b",\"touching_children\":");
    let t = picture_circles::put_circle(b, unit, index, out, s, p, true);
    put_either(out, t, short, b",\"s\":null", b",\"defect_vertex\":null")
}

// The slot at position p, with index k.
fn put_slot(
    b: &[u64; WORDS],
    unit: usize,
    index: &[u64; 512],
    out: &mut [u8],
    at: usize,
    p: usize,
    k: usize,
    short: bool,
) -> usize
    requires fit { Fit b.now }
    requires indices { Indices b.now unit index.now }
    requires at_index { AtIndex b.now unit k p }
    ensures { Drawn out.old at (slot_text (names_by short) (slot_seen_by (view b.now) unit (get_or (slots_of (view b.now) unit) k (0, 0, None)))) out.new result }
{
    let x = bench_words::load_node(b, p);
    match x.class {
        Class::Absent => put(out, at, b"null"),
        Class::Defect(v) => {
            let q = put_either(
                out,
                at,
                short,
                b"{\"o\":null,\"t\":null,\"s\":",
                b"{\"blossom\":null,\"touching_children\":null,\"defect_vertex\":",
            );
            let r = put_number(out, q, v.0 as u64);
            put_rest(b, unit, index, out, r, x.state, x.parent, short)
        }
        Class::Blossom => {
            let q = put_ring(b, unit, index, out, at, p, short);
            put_rest(b, unit, index, out, q, x.state, x.parent, short)
        }
    }
}

// All slots. The first `count` places are those of the tree's slots.
pub fn put_slots(
    b: &[u64; WORDS],
    unit: usize,
    places: &[usize; 512],
    count: usize,
    index: &[u64; 512],
    out: &mut [u8],
    at: usize,
    short: bool,
) -> usize
    requires fit { Fit b.now }
    requires places { Places b.now unit places.now count }
    requires indices { Indices b.now unit index.now }
    ensures { Drawn out.old at (array (slot_text (names_by short)) (map (slot_seen_by (view b.now) unit) (slots_of (view b.now) unit))) out.new result }
{
    let mut r = put(out, at, b"[");
    let mut i: u64 = 0;
    for k in 0..count {
        let s = put_comma(out, r, i);
        r = put_slot(b, unit, index, out, s, places[k], k, short);
        i = 1;
    }
    put(out, r, b"]")
}
