// From an entry down to the one whose move is made: an execute, an apply, a select or a while. What is to be done behind it goes to
// the numbers that remain. They stand at the end of 128 bytes, from `top` on, the next first.
ghost use Rattle.std.specs.Prelude.{◌≡◌, ℕ, ◌≤◌, ◌<◌, Bool, length, drop};
ghost use Rattle.paper.specs.Atoms.{◌∈◌};
ghost use Rattle.meaning.specs.Card.{Bytes};
ghost use Rattle.meaning.specs.declared.Layout.{Layout};
ghost use Rattle.program.specs.GoodProgram.{GoodProgram};
ghost use Rattle.deliberate.specs.Descent.{Stack, Into, Down, Reaches, AtLeaf};

use meaning::Node;
use program::read_entry;
use sets::has_member;

// A part of an entry, and where the numbers behind it begin.
#[derive(Clone, Copy)]
pub struct Part {
    pub at: usize,
    pub top: usize,
}

// Where a descent ends: an entry, its number, and where the numbers behind it begin.
#[derive(Clone, Copy)]
pub struct Leaf {
    pub entry: Node,
    pub at: usize,
    pub top: usize,
}

// The part in which the first move is made: a sequence's left, and its right goes before the numbers; "Choice takes the left if it
// has a first move, …, else the right."
fn into_part(e: Node, movable: &[u8; 16], stack: &mut [u8; 128], top: usize) -> Part
    requires { (5 ≤ e.kind) × (e.kind < 7) × (e.a < 128) × (1 ≤ top) × (top ≤ 128) × (length stack.old ≡ 128) }
    ensures into { Into e (e.a ∈ movable.now) (drop top stack.old) result.at (drop result.top stack.new) }
    ensures top_le_top { (result.top ≤ top) × (length stack.new ≡ 128) × (drop top stack.new ≡ drop top stack.old) }
{
    let left = e.a as usize;
    if e.kind == 5 {
        stack[top - 1] = e.b;
        Part {
            at: left,
            top: top - 1,
        }
    } else if has_member(movable, left) {
        Part { at: left, top }
    } else {
        Part {
            at: e.b as usize,
            top,
        }
    }
}

// Into the left of a sequence, and of that: "a sequence is one number until a move is made in it". No mark is needed for it.
// A while, for it goes from an entry to its part and counts nothing.
pub fn lead(program: &[u8], stack: &mut [u8; 128], from: usize, top: usize) -> Leaf
    requires { ((l : Layout) × ((b : Bytes) × GoodProgram l b program.now)) × Stack program.now stack.old from top }
    ensures by_index { (has : ℕ → Bool)
        → Down program.now has from (drop top stack.old) result.at (drop result.top stack.new) }
    ensures reaches { Reaches program.now stack.new result × (result.top ≤ top)
        × (drop top stack.new ≡ drop top stack.old) }
{
    let mut at = from;
    let mut rest = top;
    let mut e = read_entry(program, at);
    while e.kind == 5 {
        stack[rest - 1] = e.b;
        rest -= 1;
        at = e.a as usize;
        e = read_entry(program, at);
    }
    Leaf {
        entry: e,
        at,
        top: rest,
    }
}

// Down from an entry, behind which the numbers from top on stand: each part has a lower number, and the while goes from part to
// part.
pub fn descend(
    program: &[u8],
    movable: &[u8; 16],
    stack: &mut [u8; 128],
    from: usize,
    top: usize,
) -> Leaf
    requires { ((l : Layout) × ((b : Bytes) × GoodProgram l b program.now)) × Stack program.now stack.old from top }
    ensures down { Down program.now (λ j. j ∈ movable.now) from (drop top stack.old)
        result.at (drop result.top stack.new) }
    ensures at_leaf { AtLeaf program.now stack.new result × (result.top ≤ top)
        × (drop top stack.new ≡ drop top stack.old) }
{
    let mut at = from;
    let mut rest = top;
    let mut e = read_entry(program, at);
    while 5 <= e.kind {
        let part = into_part(e, movable, stack, rest);
        at = part.at;
        rest = part.top;
        e = read_entry(program, at);
    }
    Leaf {
        entry: e,
        at,
        top: rest,
    }
}
