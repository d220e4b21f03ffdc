// Our own deliberation (02, Wish 6): the words in which its calls answer. The definitions of what they answer are in specs/. It
// holds no code.
#![tactic(auto)]

use meaning::{Answer, Configuration};

// 02, Wish 6: "Endings, in this order: spent, finished, stuck, full."
#[derive(Clone, Copy)]
pub enum DeliberationEnding {
    Spent,
    Finished,
    Stuck,
    Full,
}

// 02, Wish 6: "the remaining program as entry numbers, the next first": the first `length` of the numbers; the rest are 0, but in
// a refusal, whose `length` is 0, the bytes that were lent.
#[derive(Clone, Copy)]
pub struct Remaining {
    pub length: u8,
    pub numbers: [u8; 128],
}

// What `deliberate` and `go on` answer: 02, Wish 6: "Endings", "The answer holds the remaining program"; the count is of moves,
// idle ones too.
#[derive(Clone, Copy)]
pub struct Deliberated {
    pub answer: Answer,
    pub count: u16,
    pub ending: DeliberationEnding,
    pub configuration: Configuration,
    pub remaining: Remaining,
}
