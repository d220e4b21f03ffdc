// The nodes: row 6 of the refusal table, and which nodes contain an atom of a kind, each in one pass.
ghost use Rattle.std.specs.Prelude.{◌≡◌, true, not, ◌≤◌, get_or, replicate};
ghost use Rattle.meaning.specs.Kinds.{node_kind};
ghost use Rattle.meaning.specs.Refusals.{kind_good, nodes_good};
ghost use Rattle.card.specs.Marks.{atom_kind, tells, mark_of, Marks};

use layout::card::Card;
use meaning::Node;

// Whether node i, of a card with some atoms, keeps the rule of its kind.
fn kind_good(x: Node, atoms: usize, i: usize) -> bool
    ensures { result ≡ kind_good atoms i (node_kind x.kind) x.a x.b }
{
    match x.kind {
        0 => (x.a == 0) & (x.b == 0),
        1..=2 => ((x.a as usize) < atoms) & (x.b == 0),
        3 => ((x.a as usize) < i) & (x.b == 0),
        4..=5 => ((x.a as usize) < i) & ((x.b as usize) < i),
        _ => false,
    }
}

// Not row 6: every node keeps its rule.
pub fn nodes_good(card: &Card) -> bool
    ensures { result ≡ nodes_good card.now.layout card.now.bytes.now }
{
    let mut good = true;
    for i in 0..card.layout.nodes.count as usize {
        let x = card.node(i);
        good &= kind_good(x, card.layout.atoms as usize, i) & (x.zero == 0);
    }
    good
}

// The mark of a node by its kind and the marks of its children, which are read whatever the kind is: the machine then chooses
// without a jump, and in a card's check a wrong guess of the kind would cost more than what is read for nothing. The kind is a
// byte: "Node, 4 bytes: kind, a, b, 0."
fn mark_of(kind: u8, first: u8, second: u8) -> u8
    requires { kind ≤ 5 }
    ensures { result ≡ mark_of (node_kind kind) first second }
{
    match kind {
        0..=2 => kind,
        3 => first,
        _ => first | second,
    }
}

// The nodes that contain a belief atom, and those that contain a goal atom, where all are marked at first: in one pass.
pub fn mark_nodes(card: &Card, marks: &mut [u8; 256])
    requires { (nodes_good card.now.layout card.now.bytes.now ≡ true) × (marks.old ≡ replicate 256 3) }
    ensures { Marks 1 card.now.layout card.now.bytes.now marks.new × Marks 2 card.now.layout card.now.bytes.now marks.new }
{
    for i in 0..card.layout.nodes.count as usize {
        let x = card.node(i);
        marks[i] = mark_of(x.kind, marks[x.a as usize], marks[x.b as usize]);
    }
}

// The two kinds of atoms that a condition may contain, by the values of their bits: "1 believes a; 2 has goal a".
#[derive(Clone, Copy)]
pub enum AtomKind {
    Believes = 1,
    HasGoal = 2,
}

// A node that is not marked for a kind of atoms.
pub fn free_of(marks: &[u8; 256], kind: AtomKind, node: u8) -> bool
    ensures { result ≡ not (tells (atom_kind kind) (get_or marks.now node 0)) }
{
    marks[node as usize] / (kind as u8) % 2 != 1
}
