// Every node judged, from the lowest upward: whether its condition holds, and the node that settled it.
ghost use Rattle.std.specs.Prelude.{◌≡◌, ◌≤◌};
ghost use Rattle.door.specs.Asking.{both};
ghost use Rattle.choices.specs.Judged.{either};
ghost use Rattle.plain.specs.Judging.{pair_of, JudgesNode, JudgesAll};

use meaning::{Layout, Node};
use unpacked::configuration::Unpacked;
use unpacked::tables::Tables;

// Whether a condition holds, and "the atom that settled it", by its node, also where it does not hold.
#[derive(Clone, Copy)]
pub struct Judgement {
    pub value: bool,
    pub node: u8,
}

// One for each node.
pub type Judgements = [Judgement; 256];

// "and": "the left child's where the left alone settles the value, else the right's".
pub fn both_of(left: Judgement, right: Judgement) -> Judgement
    ensures { pair_of result ≡ both (pair_of left) (pair_of right) }
{
    if left.value { right } else { left }
}

// "or", likewise.
fn one_of(left: Judgement, right: Judgement) -> Judgement
    ensures { pair_of result ≡ either (pair_of left) (pair_of right) }
{
    if left.value { left } else { right }
}

// Node i, by the truth values of its atom and the judgements of its children.
fn judge(i: u8, x: Node, held: bool, wanted: bool, left: Judgement, right: Judgement) -> Judgement
    ensures { JudgesNode i x held wanted left right result }
{
    match x.kind {
        0 => Judgement {
            value: true,
            node: i,
        },
        1 => Judgement {
            value: held,
            node: i,
        },
        2 => Judgement {
            value: wanted,
            node: i,
        },
        3 => Judgement {
            value: !left.value,
            node: left.node,
        },
        4 => both_of(left, right),
        _ => one_of(left, right),
    }
}

// Every node of a card: a child's number is lower than the node's own.
pub fn judge_all(l: Layout, t: Tables, u: Unpacked) -> Judgements
    requires { l.nodes.count ≤ 256 }
    ensures { JudgesAll l t u result }
{
    let mut judged = [Judgement {
        value: false,
        node: 0,
    }; 256];
    for i in 0..l.nodes.count as usize {
        let x = t.nodes[i];
        let a = x.a as usize;
        let b = x.b as usize;
        judged[i] = judge(i as u8, x, u.beliefs[a], u.goals[a], judged[a], judged[b]);
    }
    judged
}
