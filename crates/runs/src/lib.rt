// Document 01's part: the words in which it speaks of a choice's kind, of a run's end and of a card's grade. It holds no code.
#![tactic(auto)]

// 01, "A configuration and its transitions": "the kind (0 selection, 1 action, 2 revision)".
#[derive(Clone, Copy)]
pub enum Kind {
    Selection,
    Action,
    Revision,
}

// 01, "A configuration and its transitions": "one of three endings".
#[derive(Clone, Copy)]
pub enum Ending {
    // "when the count has reached" the budget
    Spent,
    // "when no transition exists"
    Rest,
    // "when the transition to be taken would leave more than 1,024 actions, which is then not taken"
    Full,
}

// 01, "Weight and grading": "the first offender: the initial plan, then selection rule n, then revision rule n, in that order".
#[derive(Clone, Copy)]
pub enum Offender {
    InitialPlan,
    Selection(usize),
    Revision(usize),
}

// 01, "Weight and grading": "A card is bounded exactly if …"; "Otherwise it is open, and the verdict carries the first offender".
#[derive(Clone, Copy)]
pub enum Verdict {
    Bounded,
    Open(Offender),
}
