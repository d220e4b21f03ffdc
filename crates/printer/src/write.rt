// A node's text written, without recursion: what is still to be written stands on a stack of tasks.
ghost use Rattle.std.specs.Prelude.{◌≡◌, ◌++◌, ◌+◌, ◌/◌, ◌≤◌, ◌<◌, length};
ghost use Rattle.meaning.specs.Kinds.{node_kind};
ghost use Rattle.meaning.specs.Calls.{over};
ghost use Rattle.card.specs.GoodCard.{GoodCard};
ghost use Rattle.meaning.specs.Card.{tree_at};
ghost use Rattle.notation.specs.Built.{size};
ghost use Rattle.notation.specs.Printing.{text_of, depth_of};
ghost use Rattle.printer.specs.Tasks.{task_of, listed, node_parts, number_parts, GoodTask, Splits, tasks};

use crate::measure::is_lower;
use layout::card::Card;
use meaning::Node;

// The tasks that a task is taken apart into, in the order of the text.
#[derive(Clone, Copy)]
pub enum Parts {
    One(u16),
    Two(u16, u16),
    Three(u16, u16, u16),
}

// A task of a kind: 0 a byte; 1 a node as an or-list, 2 as an and-list, 3 as a unit; 4 a number. It is one number of two bytes, for
// the stack holds 291 of them in fixed memory: an enum would take twice that.
fn task(kind: u16, value: u8) -> u16
    requires { kind ≤ 4 }
    ensures { result ≡ task_of kind value }
{
    256 * kind + (value as u16)
}

// "a `!` stands before a unit; the left of `&` is an and-list and its right a unit; the left of `|` is an or-list and its right an
// and-list": a node that needs no brackets.
fn node_parts(x: Node) -> Parts
    requires { x.kind ≤ 5 }
    ensures { listed result ≡ node_parts (node_kind x.kind) x.a x.b }
{
    match x.kind {
        0 => Parts::One(84),
        1 => Parts::Two(66, task(4, x.a)),
        2 => Parts::Two(71, task(4, x.a)),
        3 => Parts::Two(33, task(3, x.a)),
        4 => Parts::Three(task(2, x.a), 38, task(3, x.b)),
        _ => Parts::Three(task(1, x.a), 124, task(2, x.b)),
    }
}

// "Numbers have no zeros in front.": the last digit stands behind the others.
fn number_parts(n: u8) -> Parts
    ensures { listed result ≡ number_parts n }
{
    if n < 10 {
        Parts::One(48 + (n as u16))
    } else {
        Parts::Two(task(4, n / 10), 48 + ((n % 10) as u16))
    }
}

// A task that is no byte taken apart; brackets stand where a node is a lower thing than is wanted.
fn split(card: &Card, t: u16) -> Parts
    requires { GoodCard card.now.layout card.now.bytes.now × (256 ≤ t) × GoodTask card.now.layout t }
    ensures { Splits card.now.layout card.now.bytes.now t (listed result) }
{
    let kind = t / 256;
    let value = (t % 256) as u8;
    if 4 <= kind {
        return number_parts(value);
    }
    let x = card.node(value as usize);
    let wanted = (kind - 1) as u8;
    if is_lower(wanted, x.kind) {
        return Parts::Three(40, task(1, value), 41);
    }
    node_parts(x)
}

// Tasks put on a stack, the next on top; how many there are then.
fn put(stack: &mut [u16; 291], top: usize, p: Parts) -> usize
    requires { (length stack.old ≡ 291) × (top + length (listed p) ≤ 291) }
    ensures value { (result ≡ top + length (listed p)) × (length stack.new ≡ 291) }
    ensures result_after { tasks stack.new result ≡ listed p ++ tasks stack.old top }
{
    match p {
        Parts::One(x) => {
            stack[top] = x;
            top + 1
        }
        Parts::Two(x, y) => {
            stack[top] = y;
            stack[top + 1] = x;
            top + 2
        }
        Parts::Three(x, y, z) => {
            stack[top] = z;
            stack[top + 1] = y;
            stack[top + 2] = x;
            top + 3
        }
    }
}

// The text of a node at the front of a lent buffer, in time linear in its length.
pub fn write_text(card: &Card, node: usize, out: &mut [u8])
    requires good_card { GoodCard card.now.layout card.now.bytes.now × (node < card.now.layout.nodes.count) }
    requires node_bound { (size (tree_at card.now.layout card.now.bytes.now node) ≤ 256) × (depth_of (tree_at card.now.layout card.now.bytes.now node) ≤ 32) }
    requires node_in_bounds { length (text_of (tree_at card.now.layout card.now.bytes.now node)) ≤ length out.old }
    ensures { out.new ≡ over (text_of (tree_at card.now.layout card.now.bytes.now node)) out.old }
{
    let mut stack = [0; 291];
    let mut top = put(&mut stack, 0, Parts::One(task(1, node as u8)));
    let mut at = 0;
    // no `for`: a task that is taken apart puts others on the stack
    while 0 < top {
        let t = stack[top - 1];
        if t < 256 {
            out[at] = t as u8;
            at += 1;
            top -= 1;
        } else {
            let p = split(card, t);
            top = put(&mut stack, top - 1, p);
        }
    }
}
