// Conditions, judged in one pass over the nodes from the lowest upward. 02, Wish 3: "keeping one mark and the settling atom for
// each node".
ghost use Rattle.std.specs.Prelude.{◌≡◌, Bool, not, ℕ, ◌≤◌, length};
ghost use Rattle.meaning.specs.Kinds.{node_kind};
ghost use Rattle.card.specs.GoodCard.{GoodCard};
ghost use Rattle.door.specs.Asking.{both};
ghost use Rattle.choices.specs.OnePass.{kept_of};
ghost use Rattle.choices.specs.Judged.{of_mark, mark_at, either, Marked};

use layout::card::Card;
use meaning::{Node, Set};
use sets::has_member;

// Of each node one mark and the settling atom, in one number: the number of the node that settled it, and 256 more where its
// condition holds.
pub type Marks = [u16; 256];

// Whether a condition holds, by its mark.
pub fn is_true(mark: u16) -> bool
    ensures { result ≡ (of_mark mark).0 }
{
    256 <= mark
}

// The node that settled it.
pub fn settler(mark: u16) -> u8
    ensures { result ≡ (of_mark mark).1 }
{
    (mark % 256) as u8
}

// The mark of a value and of the node that settled it.
fn mark_of(value: bool, node: u8) -> u16
    ensures { ◌≡◌ {A = Bool × ℕ} (of_mark result) (value, node) }
{
    if value {
        256 + node as u16
    } else {
        node as u16
    }
}

// Both of two: "the left child's where the left alone settles the value, else the right's", of an "and".
pub fn both_of(left: u16, right: u16) -> u16
    ensures { of_mark result ≡ both (of_mark left) (of_mark right) }
{
    if is_true(left) { right } else { left }
}

// One of two: the same of an "or". One function for both would take what a true left gives as a parameter.
fn one_of(left: u16, right: u16) -> u16
    ensures { of_mark result ≡ either (of_mark left) (of_mark right) }
{
    if is_true(left) { left } else { right }
}

// "for "not", its child's", of the child's mark.
fn not_of(mark: u16) -> u16
    ensures { ◌≡◌ {A = Bool × ℕ} (of_mark result) (not (of_mark mark).0, (of_mark mark).1) }
{
    mark_of(!is_true(mark), settler(mark))
}

// 02, Wish 1: "Judging a condition should also name the atom that settled it: for an atom or "true", that node": node i, by the
// marks of the lower nodes.
fn judge(i: u8, x: Node, beliefs: &Set, goals: &Set, marks: &Marks) -> u16
    requires { x.kind ≤ 5 }
    ensures { of_mark result ≡ kept_of i (node_kind x.kind) x.a x.b beliefs.now goals.now (mark_at marks.now) }
{
    match x.kind {
        0 => mark_of(true, i),
        1 => mark_of(has_member(beliefs, x.a as usize), i),
        2 => mark_of(has_member(goals, x.a as usize), i),
        3 => not_of(marks[x.a as usize]),
        4 => both_of(marks[x.a as usize], marks[x.b as usize]),
        _ => one_of(marks[x.a as usize], marks[x.b as usize]),
    }
}

// Every node, over marks of whatever was before.
pub fn judge_nodes(card: &Card, beliefs: &Set, goals: &Set, marks: &mut Marks)
    requires { GoodCard card.now.layout card.now.bytes.now × (length marks.old ≡ 256) }
    ensures { Marked card.now.layout card.now.bytes.now beliefs.now goals.now marks.new
        × (length marks.new ≡ 256) }
{
    for i in 0..card.layout.nodes.count as usize {
        marks[i] = judge(i as u8, card.node(i), beliefs, goals, marks);
    }
}
