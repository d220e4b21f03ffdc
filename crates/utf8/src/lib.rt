// UTF-8 as RFC 3629 has it: whether a part of lent bytes is. One pass over the part, byte by byte.
#![tactic(auto)]

ghost use Rattle.std.specs.Prelude.{◌≡◌, ◌-◌, ◌≤◌, eqb, length};
ghost use Rattle.paper.specs.Next as Next;
ghost use Rattle.meaning.specs.Card.{part};
ghost use Rattle.utf8.specs.Reading.{begins, tails_of, behind_first, behind_tail, behind, utf8};

// What is awaited behind the bytes that were read: so many tails, the next of them within a range.
#[derive(Clone, Copy)]
pub struct Awaited {
    pub tails: u8,
    pub low: u8,
    pub high: u8,
}

// No tail: a character may begin, or the bytes may end.
const NOTHING: Awaited = Awaited {
    tails: 0,
    low: 0x80,
    high: 0xBF,
};

// A byte that there is none of, for ever: the bytes are wrong.
const NEVER: Awaited = Awaited {
    tails: 1,
    low: 1,
    high: 0,
};

// Whether a character may begin with a byte.
fn begins(x: u8) -> bool
    ensures { result ≡ begins x }
{
    (x <= 0x7F) | ((0xC2 <= x) & (x <= 0xF4))
}

// How many tails come behind a character's first byte.
fn tails_of(x: u8) -> u8
    ensures { result ≡ tails_of x }
{
    if x <= 0x7F {
        0
    } else if x <= 0xDF {
        1
    } else if x <= 0xEF {
        2
    } else {
        3
    }
}

// A bound of a character's second byte, by its first: one for each of two bytes, and one for every other.
fn bound(x: u8, k: u8, a: u8, m: u8, b: u8, other: u8) -> u8
    ensures { result ≡ Next.if (eqb x k) a (Next.if (eqb x m) b other) }
{
    if x == k {
        a
    } else if x == m {
        b
    } else {
        other
    }
}

// What is awaited behind a character's first byte.
fn behind_first(x: u8) -> Awaited
    ensures { result ≡ behind_first x }
{
    if x <= 0x7F {
        NOTHING
    } else if begins(x) {
        Awaited {
            tails: tails_of(x),
            // lower ones would spell a number that has a shorter form
            low: bound(x, 0xE0, 0xA0, 0xF0, 0x90, 0x80),
            // higher ones would spell a surrogate, or a number above 10FFFF
            high: bound(x, 0xED, 0x9F, 0xF4, 0x8F, 0xBF),
        }
    } else {
        NEVER
    }
}

// What is awaited behind a tail.
fn behind_tail(a: Awaited, x: u8) -> Awaited
    requires { 1 ≤ a.tails }
    ensures { result ≡ behind_tail a x }
{
    if (a.low <= x) & (x <= a.high) {
        Awaited {
            tails: a.tails - 1,
            ..NOTHING
        }
    } else {
        NEVER
    }
}

// What is awaited behind the next byte.
fn behind(a: Awaited, x: u8) -> Awaited
    ensures { result ≡ behind a x }
{
    if a.tails == 0 {
        behind_first(x)
    } else {
        behind_tail(a, x)
    }
}

// Whether the bytes from a place to another are UTF-8.
pub fn utf8_part(bytes: &[u8], from: usize, to: usize) -> bool
    requires { (from ≤ to) × (to ≤ length bytes.now) }
    ensures { result ≡ utf8 (part bytes.now from (to - from)) }
{
    let mut a = NOTHING;
    for x in &bytes[from..to] {
        a = behind(a, *x);
    }
    a.tails == 0
}
