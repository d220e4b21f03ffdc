// A scan of a condition: a count of open brackets is enough to find the place of the first wrong byte.
ghost use Rattle.std.specs.Prelude.{◌≡◌, ◌≤◌, ◌<◌, length, get_or};
ghost use Rattle.scan.specs.Scans.{operator, behind_last, Opens, LeafOver, Closes, UnitOver, ConditionOver};

use crate::scan::{Wrong, scan_number};

// A place in a condition, and how many brackets are open there.
#[derive(Clone, Copy)]
pub struct Opened {
    pub at: usize,
    pub brackets: usize,
}

// ""!" unit | "(" or-list ")"": what stands before the first unit that is neither.
fn scan_opening(text: &[u8], at: usize, brackets: usize) -> Opened
    requires { (at ≤ length text.now) × (brackets ≤ at) }
    ensures { Opens text.now at brackets result }
{
    let mut inside = brackets;
    for n in at..text.len() {
        match text[n] {
            b'(' => inside += 1,
            b'!' => {}
            _ => {
                return Opened {
                    at: n,
                    brackets: inside,
                };
            }
        }
    }
    Opened {
        at: text.len(),
        brackets: inside,
    }
}

// ""T" | "B" number | "G" number"
fn scan_leaf(text: &[u8], at: usize) -> Result<usize, Wrong>
    requires at_in_bounds { at ≤ length text.now }
    requires fact { at < length text.now → (get_or text.now at 0 ≡ 33 → ⊥) × (get_or text.now at 0 ≡ 40 → ⊥) }
    ensures { LeafOver text.now at result }
{
    if at == text.len() {
        return Err(Wrong { at });
    }
    match text[at] {
        b'T' => Ok(at + 1),
        b'B' | b'G' => scan_number(text, at + 1),
        _ => Err(Wrong { at }),
    }
}

// "")"", as often as a bracket is open.
fn scan_closing(text: &[u8], at: usize, brackets: usize) -> Opened
    requires { at ≤ length text.now }
    ensures { Closes text.now at brackets result }
{
    let mut inside = brackets;
    for n in at..text.len() {
        if inside == 0 {
            return Opened {
                at: n,
                brackets: inside,
            };
        }
        if text[n] != b')' {
            return Opened {
                at: n,
                brackets: inside,
            };
        }
        inside -= 1;
    }
    Opened {
        at: text.len(),
        brackets: inside,
    }
}

// "unit", with the brackets that close behind it.
fn scan_unit(text: &[u8], at: usize, brackets: usize) -> Result<Opened, Wrong>
    requires { (at ≤ length text.now) × (brackets ≤ at) }
    ensures { UnitOver text.now at brackets result }
{
    let opened = scan_opening(text, at, brackets);
    let n = scan_leaf(text, opened.at)?;
    Ok(scan_closing(text, n, opened.brackets))
}

// ""&" | "|""
fn is_operator(x: u8) -> bool
    ensures { result ≡ operator x }
{
    (x == b'&') | (x == b'|')
}

// Behind the last unit: every bracket is closed, or the byte there is wrong.
fn behind_last(last: Opened) -> Result<usize, Wrong>
    ensures { result ≡ behind_last last.at last.brackets }
{
    if last.brackets == 0 {
        Ok(last.at)
    } else {
        Err(Wrong { at: last.at })
    }
}

// "condition = or-list". A loop, for it moves by the unit that was scanned.
pub fn scan_condition(text: &[u8], at: usize) -> Result<usize, Wrong>
    requires { at ≤ length text.now }
    ensures { ConditionOver text.now at result }
{
    let mut n = at;
    let mut brackets = 0;
    loop {
        let unit = scan_unit(text, n, brackets)?;
        if unit.at == text.len() {
            return behind_last(unit);
        }
        if !is_operator(text[unit.at]) {
            return behind_last(unit);
        }
        n = unit.at + 1;
        brackets = unit.brackets;
    }
}
