#![tactic(auto)]
// The bench as one lent array of words: where each record lies, and how it is loaded and stored. Nothing above this crate names a word.
// A node or an interface is a struct by value; a store changes its own words and no other. Assumes nothing.
//
//   word 0                    the next serial
//   words 16 u + 1 .. + 7     interface u: used slots, progress, sum + 2^62, speed + 1024, parent, left half, right half
//   word 16 u + 8             the map of interface u: bit s is 1 where slot s holds a node
//   word 16 u + 9             the marks of interface u: 1 where a new node takes the lowest empty slot, 2 where no value may fall below zero, and 4
//                             in every interface of a bench whose values are held by the plain engine
//   words 16 u + 10 .. + 16   zero: room for later fields of interface u
//   words 128 + 12 k + 1 ..   node k = 64 * interface + slot: serial, class, state, parent, place, next, two touching handles,
//                    .. + 12  bias + 2^60, size, first member, members
pub mod biases; // state and bias of a node by themselves
pub mod coding; // whether words are the code of what is loaded from them
pub mod interfaces; // an interface's parent and its marks, as words

ghost use Rattle.std.specs.Prelude.{◌≡◌, length, get_or, set, ◌+◌, ◌*◌, ◌<◌};
ghost use Rattle.bench_words.specs.Codec.{state_of, state_word, handle_of, hand_of, handle_word, class_of, class_word, parent_of, parent_word};
ghost use Rattle.bench_words.specs.Store.{node_at, store_node, interface_at, store_interface, map_at, store_map};

use kinds::{Class, GrowState, Handle, Serial, Vertex};

pub const WORDS: usize = 6273;

// The first word that is no packed handle.
pub const PAST_HANDLES: u64 = 2199023255552;

// A slot. An empty one is all zero. `place` and `next` are a member's in its circle, `first` and `count` a blossom's circle; positions are
// 64 * interface + slot. Value = bias - 2^60, and T more or less as the node grows or shrinks.
#[derive(Clone, Copy)]
pub struct Node {
    pub serial: Serial,
    pub class: Class,
    pub state: GrowState,
    pub parent: Option<Handle>,
    pub place: u64,
    pub next: u64,
    pub left: Handle,
    pub right: Handle,
    pub bias: u64,
    pub size: u64,
    pub first: u64,
    pub count: u64,
}

impl Node {
    pub const OFFSET: u64 = 1152921504606846976; // so much higher than it is a value stands in the words
}

// What an interface was marked with while it was empty. One that `fills` gives a new node its lowest empty slot; in the tree of one that is
// `floored` no growth takes a value below zero. `plain` is the bench's: a growth adds to every value of the tree, and T is 0.
#[derive(Clone, Copy)]
pub struct Marks {
    pub fills: bool,
    pub floored: bool,
    pub plain: bool,
}

// `left` and `right` are a half's number and one more, or 0 without halves.
#[derive(Clone, Copy)]
pub struct Interface {
    pub used: u64,
    pub progress: u64,
    pub sum: u64,
    pub speed: u64,
    pub parent: Option<u8>,
    pub left: u64,
    pub right: u64,
    pub marks: Marks,
}

impl Interface {
    // How much higher than it is a sum stands in the words.
    pub const OFFSET: u64 = 4611686018427387904;

    // How far an interface may grow between two clears.
    pub const PROGRESS: u64 = 1099511627776;
}

pub fn state_of(w: u64) -> GrowState
    ensures { result ≡ state_of w }
{
    match w {
        0 => GrowState::Stay,
        1 => GrowState::Grow,
        _ => GrowState::Shrink,
    }
}

pub fn state_word(g: GrowState) -> u64
    ensures { result ≡ state_word g }
{
    match g {
        GrowState::Grow => 1,
        GrowState::Stay => 0,
        GrowState::Shrink => 2,
    }
}

// A packed handle: serial, slot and interface in one word.
pub fn handle_of(w: u64) -> Handle
    ensures { result ≡ handle_of w }
{
    Handle {
        unit: (w % 8) as u8,
        slot: (w / 8 % 64) as u8,
        serial: Serial((w / 8 / 64 % 4294967296) as u32),
    }
}

// The handle that any word gives: one of an interface that no bench has where the word is no packed handle.
pub fn hand_of(w: u64) -> Handle
    ensures { result ≡ hand_of w }
{
    if w < PAST_HANDLES {
        return handle_of(w);
    }
    Handle {
        unit: Handle::UNITS,
        slot: 0,
        serial: Serial(0),
    }
}

pub fn handle_word(h: Handle) -> u64
    ensures { (result ≡ handle_word h) × (result < 4398046511104) }
{
    ((h.serial.0 as u64) * 64 + (h.slot as u64)) * 8 + (h.unit as u64)
}

pub fn class_of(w: u64) -> Class
    ensures { result ≡ class_of w }
{
    match w {
        0 => Class::Absent,
        1 => Class::Blossom,
        _ => Class::Defect(Vertex(((w - 2) % 4294967296) as u32)),
    }
}

pub fn class_word(c: Class) -> u64
    ensures { result ≡ class_word c }
{
    match c {
        Class::Absent => 0,
        Class::Blossom => 1,
        Class::Defect(v) => (v.0 as u64) + 2,
    }
}

pub fn parent_of(w: u64) -> Option<Handle>
    ensures { result ≡ parent_of w }
{
    if w == 0 {
        return None;
    }
    Some(handle_of(w - 1))
}

pub fn parent_word(l: Option<Handle>) -> u64
    ensures { result ≡ parent_word l }
{
    match l {
        None => 0,
        Some(h) => handle_word(h) + 1,
    }
}

fn none(s: &[u64]) {}

// Costs nothing when it runs, and tells its caller's proof the array's length, which a reference to an array does not.
pub fn full(b: &[u64; WORDS])
    ensures { length b.now ≡ 6273 }
{
    none(b);
}

pub fn load_next(b: &[u64; WORDS]) -> u64
    ensures { result ≡ get_or b.now 0 0 }
{
    b[0]
}

pub fn store_next(b: &mut [u64; WORDS], next: u64)
    ensures { b.new ≡ set b.old 0 next }
{
    b[0] = next;
}

pub fn load_interface(b: &[u64; WORDS], u: usize) -> Interface
    requires { u < 8 }
    ensures { result ≡ interface_at b.now u }
{
    let at = u * 16;
    let parent = interfaces::up_of(b[at + 5]);
    let marks = interfaces::marks_of(b[at + 9]);
    Interface {
        used: b[at + 1],
        progress: b[at + 2],
        sum: b[at + 3],
        speed: b[at + 4],
        parent,
        left: b[at + 6],
        right: b[at + 7],
        marks,
    }
}

pub fn store_interface(b: &mut [u64; WORDS], u: usize, n: Interface)
    requires { u < 8 }
    ensures { b.new ≡ store_interface b.old u n }
{
    let at = u * 16;
    let parent = n.parent;
    let marks = n.marks;
    b[at + 1] = n.used;
    b[at + 2] = n.progress;
    b[at + 3] = n.sum;
    b[at + 4] = n.speed;
    b[at + 5] = interfaces::up_word(parent);
    b[at + 6] = n.left;
    b[at + 7] = n.right;
    b[at + 9] = interfaces::marks_word(marks);
}

// The map of an interface's present slots stands beside its record: most calls change the record and leave the map.
pub fn load_map(b: &[u64; WORDS], u: usize) -> u64
    requires { u < 8 }
    ensures { result ≡ map_at b.now u }
{
    let at = u * 16;
    b[at + 8]
}

pub fn store_map(b: &mut [u64; WORDS], u: usize, map: u64)
    requires { u < 8 }
    ensures { b.new ≡ store_map b.old u map }
{
    let at = u * 16;
    b[at + 8] = map;
}

pub fn load_node(b: &[u64; WORDS], k: usize) -> Node
    requires { k < 512 }
    ensures { result ≡ node_at b.now k }
{
    let at = 128 + k * 12;
    let class = class_of(b[at + 2]);
    let state = state_of(b[at + 3]);
    let parent = parent_of(b[at + 4]);
    let left = handle_of(b[at + 7]);
    let right = handle_of(b[at + 8]);
    Node {
        serial: Serial((b[at + 1] % 4294967296) as u32),
        class,
        state,
        parent,
        place: b[at + 5],
        next: b[at + 6],
        left,
        right,
        bias: b[at + 9],
        size: b[at + 10],
        first: b[at + 11],
        count: b[at + 12],
    }
}

pub fn store_node(b: &mut [u64; WORDS], k: usize, n: Node)
    requires { k < 512 }
    ensures { b.new ≡ store_node b.old k n }
{
    let at = 128 + k * 12;
    let class = n.class;
    let state = n.state;
    let parent = n.parent;
    let left = n.left;
    let right = n.right;
    b[at + 1] = n.serial.0 as u64;
    b[at + 2] = class_word(class);
    b[at + 3] = state_word(state);
    b[at + 4] = parent_word(parent);
    b[at + 5] = n.place;
    b[at + 6] = n.next;
    b[at + 7] = handle_word(left);
    b[at + 8] = handle_word(right);
    b[at + 9] = n.bias;
    b[at + 10] = n.size;
    b[at + 11] = n.first;
    b[at + 12] = n.count;
}
