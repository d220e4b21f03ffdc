// An entry added to a section of the card in the making, at its end, if it has room.
ghost use Rattle.std.specs.Prelude.{◌≡◌, ◌++◌, ◌+◌, ◌*◌, ◌≤◌, length, IfSome};
ghost use Rattle.meaning.specs.Place.{two_bytes};
ghost use Rattle.notation.specs.Making.{weight_in, specification_in, selection_in, revision_in};
ghost use Rattle.lines.specs.Lines.{Held, Puts, PutAt, count_in, too_large, with_atoms, start_in, specification, selection, revision};

use crate::lists::Edition1Set;
use crate::made::Made;
use layout::sizes::edition_1_header;

// Something is too large.
pub fn too_large(m: Made) -> Made
    ensures { result ≡ too_large m }
{
    Made { large: true, ..m }
}

// So many of a part of m, None if something is too large.
pub fn count_in(m: Made, n: usize) -> Option<usize>
    ensures { result ≡ count_in m n }
{
    if m.large { None } else { Some(n) }
}

// An entry behind the n others of a section that begins at start, if it has room for one more: how many it has then, None if
// something is too large.
fn put(card: &mut [u8], start: usize, n: Option<usize>, entry: &[u8]) -> Option<usize>
    requires { (start + length entry.now * 256 ≤ length card.old) × IfSome n (λ k. k ≤ 256) }
    ensures { PutAt card.old start n entry.now result card.new }
{
    let n = n?;
    if n == 256 {
        return None;
    }
    let at = start + entry.len() * n;
    card[at..at + entry.len()].copy_from_slice(entry);
    Some(n + 1)
}

// A number's bytes, low byte first. They are written out here and below, for to_le_bytes gives eight bytes or asks for a u16.
fn two_bytes(n: usize) -> [u8; 2]
    ensures { result ≡ two_bytes n }
{
    [(n % 256) as u8, (n / 256 % 256) as u8]
}

// An action's weight.
pub fn put_weight(card: &mut [u8], m: Made, w: usize) -> Made
    requires { Held m card.old }
    ensures { Puts (weight_in (two_bytes w)) m card.old result card.new }
{
    let e = two_bytes(w);
    match put(card, edition_1_header(), count_in(m, m.weights), &e) {
        Some(weights) => Made { weights, ..m },
        None => too_large(m),
    }
}

// "Specification, 36 bytes: action, node, 0, 0, Add, Del."
fn specification_bytes(action: u8, node: u8, add: Edition1Set, del: Edition1Set) -> [u8; 36]
    ensures { result ≡ specification action node add del }
{
    let mut e = [0; 36];
    e[0] = action;
    e[1] = node;
    e[4..20].copy_from_slice(&add);
    e[20..36].copy_from_slice(&del);
    e
}

// A specification of an action.
pub fn put_specification(
    card: &mut [u8],
    m: Made,
    action: u8,
    node: u8,
    add: Edition1Set,
    del: Edition1Set,
) -> Made
    requires { Held m card.old }
    ensures { Puts (specification_in (specification action node add del)) m card.old result card.new }
{
    let e = specification_bytes(action, node, add, del);
    match put(card, 1600, count_in(m, m.specifications), &e) {
        Some(specifications) => Made {
            specifications,
            ..m
        },
        None => too_large(m),
    }
}

// "Selection rule, 8 bytes: belief node, goal node, start, length (1..1,024), zero number."
fn selection_bytes(belief: u8, goal: u8, start: usize, len: usize) -> [u8; 8]
    ensures { result ≡ selection belief goal start len }
{
    [
        belief,
        goal,
        (start % 256) as u8,
        (start / 256 % 256) as u8,
        (len % 256) as u8,
        (len / 256 % 256) as u8,
        0,
        0,
    ]
}

// A selection rule.
pub fn put_selection(
    card: &mut [u8],
    m: Made,
    belief: u8,
    goal: u8,
    start: usize,
    len: usize,
) -> Made
    requires { Held m card.old }
    ensures { Puts (selection_in (selection belief goal start len)) m card.old result card.new }
{
    let e = selection_bytes(belief, goal, start, len);
    match put(card, 10816, count_in(m, m.selections), &e) {
        Some(selections) => Made { selections, ..m },
        None => too_large(m),
    }
}

// "Revision rule, 12 bytes: node, 0, head start, head length (1..1,024), body start, body length (0..1,024), zero number."
fn revision_bytes(node: u8, head: usize, h: usize, body: usize, b: usize) -> [u8; 12]
    ensures { result ≡ revision node head h body b }
{
    [
        node,
        0,
        (head % 256) as u8,
        (head / 256 % 256) as u8,
        (h % 256) as u8,
        (h / 256 % 256) as u8,
        (body % 256) as u8,
        (body / 256 % 256) as u8,
        (b % 256) as u8,
        (b / 256 % 256) as u8,
        0,
        0,
    ]
}

// A revision rule, with where its head and its body start in the pool and how long they are.
pub fn put_revision(
    card: &mut [u8],
    m: Made,
    node: u8,
    head: usize,
    h: usize,
    body: usize,
    b: usize,
) -> Made
    requires { Held m card.old }
    ensures { Puts (revision_in (revision node head h body b)) m card.old result card.new }
{
    let e = revision_bytes(node, head, h, body, b);
    match put(card, 12864, count_in(m, m.revisions), &e) {
        Some(revisions) => Made { revisions, ..m },
        None => too_large(m),
    }
}

// How many atoms there are.
pub fn put_atoms(m: Made, n: usize) -> Made
    ensures { result ≡ with_atoms m n }
{
    if n > 65535 {
        too_large(m)
    } else {
        Made { atoms: n, ..m }
    }
}

// The start: beliefs and goals, and where its plan starts in the pool and how long it is.
pub fn put_start(
    card: &mut [u8],
    m: Made,
    beliefs: Edition1Set,
    goals: Edition1Set,
    start: usize,
    len: usize,
) -> Made
    requires { Held m card.old × (start + len ≤ 8192) }
    ensures { Puts (start_in (beliefs ++ goals) start len) m card.old result card.new }
{
    if m.large {
        return m;
    }
    card[32..48].copy_from_slice(&beliefs);
    card[48..64].copy_from_slice(&goals);
    Made { start, len, ..m }
}
