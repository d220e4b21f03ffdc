// The call: the card, then the shed's sheet, then the master's, then the action; and the part that holds its name.
ghost use Rattle.std.specs.Prelude.{◌≡◌, ◌+◌, ◌≤◌};
ghost use Rattle.names.specs.Naming.{asked, name_answer, refused_name, found, names, Names, name_of, place_of};
ghost use Rattle.names.specs.Working.{SheetsReady};

use crate::Named;
use crate::sheet::{Sheet, master_good, name_span, shed_good};
use card::check::{check, row};
use meaning::{Answer, Refusal, Span};

// The card's rows, then "20 a sheet breaking these rules, the shed's before the master; then 21 unknown action".
fn judge(card: &[u8], shed: &[u8], master: &[u8], action: usize) -> Answer
    ensures { result ≡ name_answer card.now (asked shed.now master.now action) }
{
    let l = check(card)?;
    let n = l.actions as usize;
    row(shed_good(shed, n), Refusal::Sheet(1))?;
    row(master_good(master, n), Refusal::Sheet(0))?;
    row(action < n, Refusal::NoAction)
}

// "with an empty part of the master"
fn refused_name(a: Answer) -> Named
    ensures { result ≡ refused_name a }
{
    Named {
        answer: a,
        sheet: Sheet::Master,
        part: Span {
            start: 0,
            length: 0,
        },
    }
}

// "the part of the shed's sheet that holds its name, or the part of the master sheet where the shed's name is empty"
fn find(shed: &[u8], master: &[u8], action: usize) -> Named
    requires { SheetsReady shed.now master.now action }
    ensures value { result ≡ found (asked shed.now master.now action) }
    ensures length_bound { result.part.start + result.part.length ≤ 65535 }
{
    let own = name_span(shed, action);
    if 0 < own.length {
        return Named {
            answer: Ok(()),
            sheet: Sheet::Shed,
            part: own,
        };
    }
    let other = name_span(master, action);
    Named {
        answer: Ok(()),
        sheet: Sheet::Master,
        part: other,
    }
}

// What the call answers: the number, which sheet, and the part's start and length.
pub fn named(card: &[u8], shed: &[u8], master: &[u8], action: usize) -> Named
    ensures names { Names card.now (asked shed.now master.now action) result }
    ensures length_bound { result.part.start + result.part.length ≤ 65535 }
{
    let judged = judge(card, shed, master, action);
    let Ok(()) = judged else {
        return refused_name(judged);
    };
    find(shed, master, action)
}

// The part itself: of the shed's sheet or of the master's, as the answer has it.
pub fn name<'a>(card: &[u8], shed: &'a [u8], master: &'a [u8], action: usize) -> &'a [u8]
    ensures result_value { result.now ≡ name_of (names card.now (asked shed.now master.now action))
        shed.now master.now }
    ensures ref_ptr_value { result.ref_ptr ≡ place_of (names card.now (asked shed.now master.now action))
        shed.entry.ref_ptr master.entry.ref_ptr }
{
    let n = named(card, shed, master, action);
    let start = n.part.start as usize;
    let end = start + (n.part.length as usize);
    match n.sheet {
        Sheet::Shed => &shed[start..end],
        Sheet::Master => &master[start..end],
    }
}
