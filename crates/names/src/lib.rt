// Move names in two languages: the name of an action, in the shed's own language or in the master's.
#![tactic(auto)]

pub mod name;
pub mod sheet;

use crate::sheet::Sheet;
use meaning::{Answer, Span};

// The answer, and the part that it hands back: of which sheet, and where in it.
#[derive(Clone, Copy)]
pub struct Named {
    pub answer: Answer,
    pub sheet: Sheet,
    pub part: Span,
}
