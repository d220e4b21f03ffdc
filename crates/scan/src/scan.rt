// A scan of a text: "17 text, with the place of the first byte that no continuation could make right (the length, if it just
// ends)". One byte ahead is always enough, and a count of open brackets.
ghost use Rattle.std.specs.Prelude.{◌≤◌, length, Ok};
ghost use Rattle.notation.specs.Scanning.{rest, number, digits, end, remark};
ghost use Rattle.scan.specs.Scans.{place_of, Scans, ListOver};

use conditions::number::{goes_on, is_digit};

// The place of the first byte that no continuation could make right.
#[derive(Clone, Copy)]
pub struct Wrong {
    pub at: usize,
}

// The bytes of a word: the place behind it, as in each scan of a part.
pub fn scan_word(text: &[u8], at: usize, word: &[u8]) -> Result<usize, Wrong>
    requires { at ≤ length text.now }
    ensures { Scans text.now at (rest word.now) (λ k. k) result }
{
    let mut n = at;
    for x in word {
        if n == text.len() {
            return Err(Wrong { at: n });
        }
        if text[n] != *x {
            return Err(Wrong { at: n });
        }
        n += 1;
    }
    Ok(n)
}

// "{ digit }": the place of the first byte that is none.
fn scan_digits(text: &[u8], at: usize) -> usize
    requires { at ≤ length text.now }
    ensures { Scans text.now at digits (λ k. k) (Ok result) }
{
    for n in at..text.len() {
        if !is_digit(text[n]) {
            return n;
        }
    }
    text.len()
}

// "number = digit { digit }"
pub fn scan_number(text: &[u8], at: usize) -> Result<usize, Wrong>
    requires { at ≤ length text.now }
    ensures { (at ≤ place_of result) × Scans text.now at number (λ k. k) result }
{
    if at == text.len() {
        return Err(Wrong { at });
    }
    if is_digit(text[at]) {
        Ok(scan_digits(text, at + 1))
    } else {
        Err(Wrong { at })
    }
}

// "text LF"
pub fn scan_remark(text: &[u8], at: usize) -> Result<usize, Wrong>
    requires { at ≤ length text.now }
    ensures { Scans text.now at remark (λ k. k) result }
{
    for n in at..text.len() {
        if text[n] == b'\n' {
            return Ok(n + 1);
        }
    }
    Err(Wrong { at: text.len() })
}

// "end = LF | " #" text LF"
pub fn scan_end(text: &[u8], at: usize) -> Result<usize, Wrong>
    requires { at ≤ length text.now }
    ensures { Scans text.now at end (λ k. k) result }
{
    if at == text.len() {
        return Err(Wrong { at });
    }
    if text[at] == b'\n' {
        return Ok(at + 1);
    }
    let n = scan_word(text, at, b" #")?;
    scan_remark(text, n)
}

// "list = { " " number }": behind it.
pub fn scan_list(text: &[u8], at: usize) -> usize
    requires { at ≤ length text.now }
    ensures { ListOver text.now at result }
{
    let mut n = at;
    // no `for`: each number says where the next one begins
    while goes_on(text, n) {
        n = scan_digits(text, n + 2);
    }
    n
}
