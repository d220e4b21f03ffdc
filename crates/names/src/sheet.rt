// A sheet of move names, checked whole in one pass: the count and the offsets' ends, then each name from the last to the first.
ghost use Rattle.std.specs.Prelude.{◌≡◌, ◌+◌, ◌*◌, ◌≤◌, length};
ghost use Rattle.meaning.specs.Refusals.{every};
ghost use Rattle.names.specs.Sheets.{offset_at, name_span, head_good, name_good, sheet_good, shed_good, master_good};
ghost use Rattle.names.specs.Naming.{sheet_number_of};
ghost use Rattle.names.specs.Working.{Holds};

use layout::bytes::{number_at, two_bytes_at};
use meaning::Span;
use utf8::utf8_part;

// "the part of the shed's sheet …, or the part of the master sheet": which of the two, 0 the master's, 1 the shed's.
#[derive(Clone, Copy)]
pub enum Sheet {
    Master,
    Shed,
}

impl Sheet {
    // The number in which it is told.
    pub fn number(self) -> usize
        ensures { result ≡ sheet_number_of self }
    {
        self as usize
    }
}

// "a count n", "the first 2n + 4, the last the sheet's length"
fn head_good(sheet: &[u8], n: usize) -> bool
    requires { (n ≤ 256) × (2 * n + 4 ≤ length sheet.now) }
    ensures { result ≡ head_good n sheet.now }
{
    let count = number_at(sheet, 0);
    let first = number_at(sheet, 2);
    let last = number_at(sheet, 2 + 2 * n);
    (count == n) & (first == 2 * n + 4) & (last == sheet.len())
}

// "offsets that never fall", and "the names, each in UTF-8", of so many bytes at least.
fn names_good(sheet: &[u8], n: usize, least: usize) -> bool
    requires { (n ≤ 256) × (least ≤ 1) × (2 * n + 4 ≤ length sheet.now) × (offset_at sheet.now n ≡ length sheet.now) }
    ensures { result ≡ every n (name_good least sheet.now) }
{
    let mut to = sheet.len();
    for i in (0..n).rev() {
        let from = number_at(sheet, 2 + 2 * i);
        if to < from + least {
            return false;
        }
        if !utf8_part(sheet, from, to) {
            return false;
        }
        to = from;
    }
    true
}

// The rules of a sheet for a card with n actions, whose names have so many bytes at least.
fn sheet_good(sheet: &[u8], n: usize, least: usize) -> bool
    requires { (n ≤ 256) × (least ≤ 1) }
    ensures { result ≡ sheet_good least n sheet.now }
{
    (2 * n + 4 <= sheet.len()) && (head_good(sheet, n) && names_good(sheet, n, least))
}

// "may have one in its own language (an empty part: none)"
pub fn shed_good(sheet: &[u8], n: usize) -> bool
    requires { n ≤ 256 }
    ensures { result ≡ shed_good n sheet.now }
{
    (sheet.len() == 0) || sheet_good(sheet, n, 0)
}

// "no master name is empty"
pub fn master_good(sheet: &[u8], n: usize) -> bool
    requires { n ≤ 256 }
    ensures { result ≡ master_good n sheet.now }
{
    sheet_good(sheet, n, 1)
}

// The part that holds an action's name; an empty one in a sheet of no bytes. Offsets have "two bytes each".
pub fn name_span(sheet: &[u8], action: usize) -> Span
    requires { (action ≤ 256) × Holds sheet.now action }
    ensures value { result ≡ name_span sheet.now action }
    ensures length_bound { result.start + result.length ≤ 65535 }
{
    if sheet.len() == 0 {
        return Span {
            start: 0,
            length: 0,
        };
    }
    let from = two_bytes_at(sheet, 2 + 2 * action);
    let to = two_bytes_at(sheet, 4 + 2 * action);
    Span {
        start: from,
        length: to - from,
    }
}
