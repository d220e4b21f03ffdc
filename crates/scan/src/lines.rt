// A scan of the lines of a text, part by part.
ghost use Rattle.std.specs.Prelude.{◌≡◌, ◌≤◌, ◌<◌, length};
ghost use Rattle.notation.specs.Scanning.{first, lines, rest, number, list_end, end, judge};
ghost use Rattle.scan.specs.Scans.{Scans, WordCondition, WordList, do_line_to, select_line_to, revise_line_to, begin_line_to, NextLine, found};

use crate::condition::scan_condition;
use crate::scan::{Wrong, scan_end, scan_list, scan_number, scan_remark, scan_word};

// A word and a number.
fn scan_word_number(text: &[u8], at: usize, word: &[u8]) -> Result<usize, Wrong>
    requires { at ≤ length text.now }
    ensures { Scans text.now at (λ k. rest word.now (number k)) (λ k. k) result }
{
    let n = scan_word(text, at, word)?;
    scan_number(text, n)
}

// A word and a condition.
fn scan_word_condition(text: &[u8], at: usize, word: &[u8]) -> Result<usize, Wrong>
    requires { at ≤ length text.now }
    ensures { WordCondition text.now at word.now result }
{
    let n = scan_word(text, at, word)?;
    scan_condition(text, n)
}

// A word and a list, behind which another word comes.
fn scan_word_list(text: &[u8], at: usize, word: &[u8]) -> Result<usize, Wrong>
    requires { at ≤ length text.now }
    ensures { WordList text.now at word.now result }
{
    let n = scan_word(text, at, word)?;
    Ok(scan_list(text, n))
}

// A word, a list and the end of the line.
fn scan_word_end(text: &[u8], at: usize, word: &[u8]) -> Result<usize, Wrong>
    requires { at ≤ length text.now }
    ensures { Scans text.now at (λ k. rest word.now (list_end k)) (λ k. k) result }
{
    let n = scan_word(text, at, word)?;
    scan_end(text, scan_list(text, n))
}

// Behind the first byte: ""atoms " number end" and ""action " number end"
fn scan_number_line(text: &[u8], at: usize, word: &[u8]) -> Result<usize, Wrong>
    requires { at ≤ length text.now }
    ensures { Scans text.now at (λ k. rest word.now (number (end k))) (λ k. k) result }
{
    let n = scan_word_number(text, at, word)?;
    scan_end(text, n)
}

// Behind the first byte: ""do " number " if " condition " add" list " del" list end"
fn scan_do(text: &[u8], at: usize) -> Result<usize, Wrong>
    requires { at ≤ length text.now }
    ensures { Scans text.now at do_line_to (λ k. k) result }
{
    let action = scan_word_number(text, at, b"o ")?;
    let asked = scan_word_condition(text, action, b" if ")?;
    let added = scan_word_list(text, asked, b" add")?;
    scan_word_end(text, added, b" del")
}

// Behind the first byte: ""select if " condition " goal " condition " plan" list end"
fn scan_select(text: &[u8], at: usize) -> Result<usize, Wrong>
    requires { at ≤ length text.now }
    ensures { Scans text.now at select_line_to (λ k. k) result }
{
    let belief = scan_word_condition(text, at, b"elect if ")?;
    let goal = scan_word_condition(text, belief, b" goal ")?;
    scan_word_end(text, goal, b" plan")
}

// Behind the first byte: ""revise" list " if " condition " to" list end"
fn scan_revise(text: &[u8], at: usize) -> Result<usize, Wrong>
    requires { at ≤ length text.now }
    ensures { Scans text.now at revise_line_to (λ k. k) result }
{
    let head = scan_word_list(text, at, b"evise")?;
    let asked = scan_word_condition(text, head, b" if ")?;
    scan_word_end(text, asked, b" to")
}

// Behind the first byte: ""begin beliefs" list " goals" list " plan" list end"
fn scan_begin(text: &[u8], at: usize) -> Result<usize, Wrong>
    requires { at ≤ length text.now }
    ensures { Scans text.now at begin_line_to (λ k. k) result }
{
    let beliefs = scan_word_list(text, at, b"egin beliefs")?;
    let goals = scan_word_list(text, beliefs, b" goals")?;
    scan_word_end(text, goals, b" plan")
}

// Where a line begins: before the atoms line, before a line of a kind from this one on, behind the begin line.
#[derive(Clone, Copy)]
pub enum Stage {
    First,
    Actions,
    Dos,
    Selects,
    Revises,
    Ending,
}

// The place behind a line, with the stage of the text there.
#[derive(Clone, Copy)]
pub struct Staged {
    pub at: usize,
    pub stage: Stage,
}

// A line, from its first byte on.
fn scan_line(text: &[u8], n: usize, stage: Stage) -> Result<Staged, Wrong>
    requires { n < length text.now }
    ensures { NextLine text.now n stage result }
{
    let at = n + 1;
    let wrong = Wrong { at: n };
    let (at, stage) = match text[n] {
        b'\n' => (at, stage),
        b'#' => (scan_remark(text, at)?, stage),
        b'a' => match stage {
            Stage::First => (scan_number_line(text, at, b"toms ")?, Stage::Actions),
            Stage::Actions => (scan_number_line(text, at, b"ction ")?, Stage::Actions),
            _ => return Err(wrong),
        },
        b'd' => match stage {
            Stage::Actions | Stage::Dos => (scan_do(text, at)?, Stage::Dos),
            _ => return Err(wrong),
        },
        b's' => match stage {
            Stage::Actions | Stage::Dos | Stage::Selects => {
                (scan_select(text, at)?, Stage::Selects)
            }
            _ => return Err(wrong),
        },
        b'r' => match stage {
            Stage::First | Stage::Ending => return Err(wrong),
            _ => (scan_revise(text, at)?, Stage::Revises),
        },
        b'b' => match stage {
            Stage::First | Stage::Ending => return Err(wrong),
            _ => (scan_begin(text, at)?, Stage::Ending),
        },
        _ => return Err(Wrong { at: n }),
    };
    Ok(Staged { at, stage })
}

// A whole text: derived, or the place of the first byte that no continuation could make right.
pub fn scan_text(text: &[u8]) -> Result<(), Wrong>
    ensures { found result ≡ judge text.now (lines first) }
{
    let mut n = 0;
    let mut stage = Stage::First;
    // no `for`: each line says where the next one begins
    while n < text.len() {
        let line = scan_line(text, n, stage)?;
        n = line.at;
        stage = line.stage;
    }
    match stage {
        Stage::Ending => Ok(()),
        _ => Err(Wrong { at: n }),
    }
}
