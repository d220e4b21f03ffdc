// Lists of numbers, and what stands between them: docs/TEXT.md, "list = { " " number }".
ghost use Rattle.std.specs.Prelude.{◌≡◌, ◌≤◌, length, IfSome};
ghost use Rattle.lines.specs.Lines.{Skips, BehindLine, WithAtom, ReadsSet, WithAction, ReadsPlan};

use conditions::number::{goes_on, read_number};
use sets::add_member;

// Some bytes on, or at the end of the text.
pub fn skip(text: &[u8], at: usize, n: usize) -> usize
    requires { at ≤ length text.now }
    ensures { Skips text.now at n result }
{
    if text.len() - at < n {
        text.len()
    } else {
        at + n
    }
}

// Behind the end of the line.
pub fn behind_line(text: &[u8], at: usize) -> usize
    requires { at ≤ length text.now }
    ensures { BehindLine text.now at result }
{
    for n in at..text.len() {
        if text[n] == b'\n' {
            return n + 1;
        }
    }
    text.len()
}

// ---- sets

// 02, Wish 9: "Text cards stay edition 1": "A set of atoms is 16 bytes".
pub type Edition1Set = [u8; 16];

// A set with one atom more, if there is such an atom.
fn with_atom(mut set: Edition1Set, v: usize) -> Edition1Set
    ensures { WithAtom set v result }
{
    if v > 127 {
        return set;
    }
    add_member(&mut set, v);
    set
}

// A set that was read, whether all its atoms are below 128, and the place behind it. The flag stands beside the set, for reading
// goes on behind a set that does not fit: 18, of a later line, comes before 25.
#[derive(Clone, Copy)]
pub struct SetRead {
    pub set: Edition1Set,
    pub fits: bool,
    pub next: usize,
}

// "A set's numbers may come in any order and twice"
pub fn read_set(text: &[u8], at: usize) -> SetRead
    requires { at ≤ length text.now }
    ensures { ReadsSet text.now at result }
{
    let mut set = [0; 16];
    let mut fits = true;
    let mut next = at;
    // no `for`: each number says where the next one begins
    while goes_on(text, next) {
        let n = read_number(text, next + 1);
        // By a name of its own: an array that a call gives is in no proof where it is laid in a variable that is lent.
        let more = with_atom(set, n.value);
        set = more;
        fits &= n.value <= 127;
        next = n.next;
    }
    SetRead { set, fits, next }
}

// ---- plans

// An action at the pool's end, where it has count bytes: how many it has then, None if something is too large.
fn with_action(pool: &mut [u8], count: Option<usize>, v: usize) -> Option<usize>
    requires { (length pool.old ≡ 8192) × IfSome count (λ n. n ≤ 8192) }
    ensures { WithAction pool.old count v result pool.new }
{
    let n = count?;
    if (v > 255) | (n == 8192) {
        return None;
    }
    pool[n] = v as u8;
    Some(n + 1)
}

// The place behind a plan, and how many actions the pool has then, None if something is too large.
#[derive(Clone, Copy)]
pub struct PlanRead {
    pub next: usize,
    pub count: Option<usize>,
}

// A plan's actions, at the pool's end.
pub fn read_plan(text: &[u8], at: usize, pool: &mut [u8], start: Option<usize>) -> PlanRead
    requires { (at ≤ length text.now) × (length pool.old ≡ 8192) × IfSome start (λ n. n ≤ 8192) }
    ensures { ReadsPlan text.now at pool.old start result pool.new }
{
    let mut count = start;
    let mut next = at;
    // no `for`: each number says where the next one begins
    while goes_on(text, next) {
        let n = read_number(text, next + 1);
        count = with_action(pool, count, n.value);
        next = n.next;
    }
    PlanRead { next, count }
}
