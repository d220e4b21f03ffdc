// How large a node's text is: numbers made node by node from the lowest up and capped, for 256 nodes can stand for 2^256 - 1
// printed ones.
ghost use Rattle.std.specs.Prelude.{◌≡◌, ◌+◌, ◌≤◌, ◌<◌, min, max, length};
ghost use Rattle.meaning.specs.Kinds.{node_kind};
ghost use Rattle.meaning.specs.Card.{node_at, tree_at};
ghost use Rattle.card.specs.GoodCard.{GoodCard};
ghost use Rattle.notation.specs.Printing.{decimal};
ghost use Rattle.printer.specs.Measures.{lower, around, size_by, depth_by, length_by, Right, MeasuredTo};

use layout::card::Card;

// How many nodes a text has, how deep it nests and how many bytes it has.
#[derive(Clone, Copy)]
pub struct Measured {
    pub size: u16,
    pub depth: u8,
    pub length: u16,
}

// Whether a node of a kind is a lower thing than is wanted: 0 an or-list, 1 an and-list, 2 a unit. Here and below a node's kind is
// the byte that the card has.
pub fn is_lower(wanted: u8, kind: u8) -> bool
    ensures { result ≡ lower wanted (node_kind kind) }
{
    match kind {
        4 => 1 < wanted,
        5 => 0 < wanted,
        _ => false,
    }
}

// The brackets around it: a pair or none.
fn pairs_around(wanted: u8, kind: u8) -> usize
    ensures { (result ≡ around (node_kind kind) wanted) × (result ≤ 1) }
{
    if is_lower(wanted, kind) { 1 } else { 0 }
}

// How many digits a number has.
fn digits(n: u8) -> usize
    ensures { (result ≡ length (decimal n)) × (result ≤ 3) }
{
    if n < 10 {
        1
    } else if n < 100 {
        2
    } else {
        3
    }
}

// The nodes of a node's text, by how many its children's have beside their own: at most 257, which is too many.
fn size_by(kind: u8, a: u8, b: u8) -> u16
    requires { kind ≤ 5 }
    ensures { result ≡ min (size_by (node_kind kind) (a + 1) (b + 1)) 257 }
{
    if kind < 3 {
        1
    } else if kind == 3 {
        ((a as usize) + 2).min(257) as u16
    } else {
        ((a as usize) + (b as usize) + 3).min(257) as u16
    }
}

// How many nodes a text has beside its own: at most 255, with which the text around it has too many.
fn beside_own(size: u16) -> u8
    requires { 1 ≤ size }
    ensures { result + 1 ≡ min size 256 }
{
    (size.min(256) - 1) as u8
}

// Its depth, by the depths and the kinds of its children: at most 33, which is too deep.
fn depth_by(kind: u8, p: u8, q: u8, a: u8, b: u8) -> u8
    requires { kind ≤ 5 }
    ensures { result ≡ min (depth_by (node_kind kind) (around (node_kind p)) (around (node_kind q)) a b) 33 }
{
    let l = a as usize;
    let r = b as usize;
    match kind {
        3 => (l + pairs_around(2, p) + 1).min(33) as u8,
        4 => (l + pairs_around(1, p)).max(r + pairs_around(2, q)).min(33) as u8,
        5 => (l + pairs_around(0, p)).max(r + pairs_around(1, q)).min(33) as u8,
        _ => 0,
    }
}

// Its length, by the lengths and the kinds of its children and by the atom's number n: at most 1,025, which no text of 256 nodes
// has.
fn length_by(kind: u8, n: u8, p: u8, q: u8, a: u16, b: u16) -> u16
    requires { kind ≤ 5 }
    ensures { result ≡ min (length_by (node_kind kind) n (around (node_kind p)) (around (node_kind q)) a b) 1025 }
{
    let l = a as usize;
    let r = b as usize;
    match kind {
        0 => 1,
        3 => (l + 2 * pairs_around(2, p) + 1).min(1025) as u16,
        4 => (l + 2 * pairs_around(1, p) + (r + 2 * pairs_around(2, q)) + 1).min(1025) as u16,
        5 => (l + 2 * pairs_around(0, p) + (r + 2 * pairs_around(1, q)) + 1).min(1025) as u16,
        _ => (1 + digits(n)) as u16,
    }
}

// The kind of a node, and 0 where there is none.
fn kind_of(card: &Card, i: u8) -> u8
    ensures { i < card.now.layout.nodes.count → result ≡ (node_at card.now.layout card.now.bytes.now i).kind }
{
    if (i as usize) < (card.layout.nodes.count as usize) {
        card.node(i as usize).kind
    } else {
        0
    }
}

// The text of node i measured, by the measures of the lower nodes.
fn measure_node(
    card: &Card,
    sizes: &[u8; 256],
    depths: &[u8; 256],
    lengths: &[u16; 256],
    i: usize,
) -> Measured
    requires { GoodCard card.now.layout card.now.bytes.now × (i < card.now.layout.nodes.count)
        × MeasuredTo card.now.layout card.now.bytes.now sizes.now depths.now lengths.now i }
    ensures { Right 257 (tree_at card.now.layout card.now.bytes.now i) result.size result.depth result.length }
{
    let x = card.node(i);
    let a = x.a as usize;
    let b = x.b as usize;
    let p = kind_of(card, x.a);
    let q = kind_of(card, x.b);
    Measured {
        size: size_by(x.kind, sizes[a], sizes[b]),
        depth: depth_by(x.kind, p, q, depths[a], depths[b]),
        length: length_by(x.kind, x.a, p, q, lengths[a], lengths[b]),
    }
}

// A node's text measured, in one pass over the nodes up to it.
pub fn measure(card: &Card, node: usize) -> Measured
    requires { GoodCard card.now.layout card.now.bytes.now × (node < card.now.layout.nodes.count) }
    ensures { Right 257 (tree_at card.now.layout card.now.bytes.now node) result.size result.depth result.length }
{
    let mut sizes = [0; 256];
    let mut depths = [0; 256];
    let mut lengths = [0; 256];
    for i in 0..node {
        let m = measure_node(card, &sizes, &depths, &lengths, i);
        sizes[i] = beside_own(m.size);
        depths[i] = m.depth;
        lengths[i] = m.length;
    }
    measure_node(card, &sizes, &depths, &lengths, node)
}
