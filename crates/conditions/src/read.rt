// The reader of a condition: docs/TEXT.md, "condition = or-list". It is asked of any bytes, and tells what the grammar says of
// those that begin with a condition.
ghost use Rattle.std.specs.Prelude.{◌≡◌, true, ◌≤◌, ◌<◌, length, get_or, drop, IfSome};
ghost use Rattle.notation.specs.Values.{unit_of, and_list_of, or_list_of, condition_of};
ghost use Rattle.conditions.specs.Reads.{leaf, begins, TextAt, ReadsAtom, ReadsLeaf, ReadsCondition};

use crate::nodes::{put_atom, put_member, put_node, put_not};
use crate::number::read_number;

// The place behind a condition, and how many nodes there are then, None if something is too large.
#[derive(Clone, Copy)]
pub struct TreeRead {
    pub next: usize,
    pub count: Option<usize>,
}

// Brackets and `!` nest too deep.
#[derive(Clone, Copy)]
pub struct Nested;

// "T" | "B" | "G"
fn is_leaf(x: u8) -> bool
    ensures { result ≡ leaf x }
{
    (x == b'T') | (x == b'B') | (x == b'G')
}

// Behind ""B"" or ""G"": the number.
fn read_atom(text: &[u8], at: usize, kind: u8, nodes: &mut [u8], k: Option<usize>) -> TreeRead
    requires at_in_bounds { at ≤ length text.now }
    requires nodes_len { (length nodes.old ≡ 1024) × IfSome k (λ n. n ≤ 256) }
    ensures { ReadsAtom text.now at kind nodes.old k result nodes.new }
{
    let number = read_number(text, at);
    TreeRead {
        next: number.next,
        count: put_atom(nodes, k, kind, number.value),
    }
}

// ""T" | "B" number | "G" number"
fn read_leaf(text: &[u8], at: usize, nodes: &mut [u8], k: Option<usize>) -> TreeRead
    requires at_in_bounds { (at < length text.now) × (leaf (get_or text.now at 0) ≡ true) }
    requires nodes_len { (length nodes.old ≡ 1024) × IfSome k (λ n. n ≤ 256) }
    ensures { ReadsLeaf text.now at nodes.old k result nodes.new }
{
    match text[at] {
        b'T' => TreeRead {
            next: at + 1,
            count: put_node(nodes, k, 0, 0, 0),
        },
        b'B' => read_atom(text, at + 1, 1, nodes, k),
        _ => read_atom(text, at + 1, 2, nodes, k),
    }
}

// Behind the next byte, if there is one.
fn behind_byte(text: &[u8], at: usize) -> usize
    requires { at ≤ length text.now }
    ensures { (at ≤ result) × TextAt text.now result (drop 1 (drop at text.now)) }
{
    if at == text.len() { at } else { at + 1 }
}

// Whether the byte x comes next.
fn comes(text: &[u8], at: usize, x: u8) -> bool
    requires { at ≤ length text.now }
    ensures { result ≡ begins x (drop at text.now) }
{
    if at == text.len() {
        false
    } else {
        text[at] == x
    }
}

// "unit = "T" | "B" number | "G" number | "!" unit | "(" or-list ")"", with how many may still nest.
#[cycle(condition)]
fn read_unit(
    text: &[u8],
    at: usize,
    left: usize,
    nodes: &mut [u8],
    k: Option<usize>,
) -> Result<TreeRead, Nested>
    requires at_in_bounds { at ≤ length text.now }
    requires nodes_len { (length nodes.old ≡ 1024) × IfSome k (λ n. n ≤ 256) }
    ensures { ReadsCondition text.now at nodes.old k (unit_of left (drop at text.now)) result nodes.new }
{
    if at == text.len() {
        return Err(Nested);
    }
    let x = text[at];
    if is_leaf(x) {
        return Ok(read_leaf(text, at, nodes, k));
    }
    if left == 0 {
        return Err(Nested);
    }
    if x == b'!' {
        let unit = read_unit(text, at + 1, left - 1, nodes, k)?;
        return Ok(TreeRead {
            next: unit.next,
            count: put_not(nodes, unit.count),
        });
    }
    let list = read_or_list(text, at + 1, left - 1, nodes, k)?;
    Ok(TreeRead {
        next: behind_byte(text, list.next),
        count: list.count,
    })
}

// "and-list = unit { "&" unit }". It is no one function with read_or_list: they and read_unit call each other, as the grammar's
// rules do.
#[cycle(condition)]
fn read_and_list(
    text: &[u8],
    at: usize,
    left: usize,
    nodes: &mut [u8],
    k: Option<usize>,
) -> Result<TreeRead, Nested>
    requires at_in_bounds { at ≤ length text.now }
    requires nodes_len { (length nodes.old ≡ 1024) × IfSome k (λ n. n ≤ 256) }
    ensures { ReadsCondition text.now at nodes.old k (and_list_of left (drop at text.now)) result nodes.new }
{
    let mut place = at;
    let mut count = k;
    let mut first = true;
    loop {
        let unit = read_unit(text, place, left, nodes, count)?;
        count = put_member(nodes, 4, first, count, unit.count);
        if !comes(text, unit.next, b'&') {
            return Ok(TreeRead {
                next: unit.next,
                count,
            });
        }
        place = unit.next + 1;
        first = false;
    }
}

// "or-list = and-list { "|" and-list }"
#[cycle(condition)]
fn read_or_list(
    text: &[u8],
    at: usize,
    left: usize,
    nodes: &mut [u8],
    k: Option<usize>,
) -> Result<TreeRead, Nested>
    requires at_in_bounds { at ≤ length text.now }
    requires nodes_len { (length nodes.old ≡ 1024) × IfSome k (λ n. n ≤ 256) }
    ensures { ReadsCondition text.now at nodes.old k (or_list_of left (drop at text.now)) result nodes.new }
{
    let mut place = at;
    let mut count = k;
    let mut first = true;
    loop {
        let list = read_and_list(text, place, left, nodes, count)?;
        count = put_member(nodes, 5, first, count, list.count);
        if !comes(text, list.next, b'|') {
            return Ok(TreeRead {
                next: list.next,
                count,
            });
        }
        place = list.next + 1;
        first = false;
    }
}

// "condition = or-list", where 32 may nest
pub fn read_condition(
    text: &[u8],
    at: usize,
    nodes: &mut [u8],
    k: Option<usize>,
) -> Result<TreeRead, Nested>
    requires at_in_bounds { at ≤ length text.now }
    requires nodes_len { (length nodes.old ≡ 1024) × IfSome k (λ n. n ≤ 256) }
    ensures { ReadsCondition text.now at nodes.old k (condition_of (drop at text.now)) result nodes.new }
{
    read_or_list(text, at, 32, nodes, k)
}
