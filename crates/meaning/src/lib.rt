// The meaning of a card: the words in which the eight calls, `next` and the two calls for bounded cards answer. The definitions of
// what they answer are in specs/. It holds no code.
#![tactic(auto)]

use runs::{Ending, Verdict};

// 01, "Numbers the guide may answer": the rows of the table but the first, by their names, in its order; in the place of "not
// enabled" the three of 02, Wish 1: no such rule or specification, the plan's front, a condition with the node that settled it.
// Then those of 02, Wish 2: a text with the place of the wrong byte, nested too deep, too large; that of Wish 6: a program; those
// of Wish 8: a sheet, with which it is (0 the master's, 1 the shed's), and an unknown action; and that of Wish 10: the card is open
// or the plan too heavy.
#[derive(Clone, Copy)]
pub enum Refusal {
    Short,
    Mark,
    Count,
    Offsets,
    Weight,
    Node,
    Rule,
    ActionByte,
    Atom,
    Configuration,
    NoRule,
    Front,
    Condition(usize),
    PlanFull,
    NoRoom,
    Text(usize),
    Nested,
    Large,
    Program,
    Sheet(usize),
    NoAction,
    OpenOrHeavy,
}

// 01, "Numbers the guide may answer": "done", row 0, or one of the others.
pub type Answer = Result<(), Refusal>;

// 01, "The card, edition 1", the table: "nodes, offset" and the like: how many entries (the pool: bytes) a section has, and
// where it starts.
#[derive(Clone, Copy)]
pub struct Section {
    pub count: u16,
    pub offset: u16,
}

// 01, "The card, edition 1": "A plan is a start and a length in the pool".
#[derive(Clone, Copy)]
pub struct Span {
    pub start: u16,
    pub length: u16,
}

// 01, "The card, edition 1": "counts and offsets in a header", in the table's order.
#[derive(Clone, Copy)]
pub struct Layout {
    pub edition: u16,
    pub atoms: u16,
    pub actions: u16,
    pub nodes: Section,
    pub specifications: Section,
    pub selections: Section,
    pub revisions: Section,
    pub pool: Section,
    pub initial: Span,
}

// 01, "The card, edition 1": "Node, 4 bytes: kind, a, b, 0."
#[derive(Clone, Copy)]
pub struct Node {
    pub kind: u8,
    pub a: u8,
    pub b: u8,
    pub zero: u8,
}

// 01, "The card, edition 1": "Specification, 36 bytes: action, node, 0, 0, Add, Del." The two 0 are one number.
#[derive(Clone, Copy)]
pub struct SpecificationEntry {
    pub action: u8,
    pub node: u8,
    pub zero: u16,
    pub add: Set,
    pub del: Set,
}

// 01, "The card, edition 1": "Selection rule, 8 bytes: belief node, goal node, start, length (1..1,024), zero number."
#[derive(Clone, Copy)]
pub struct SelectionEntry {
    pub belief: u8,
    pub goal: u8,
    pub plan: Span,
    pub zero: u16,
}

// 01, "The card, edition 1": "Revision rule, 12 bytes: node, 0, head start, head length (1..1,024), body start, body length
// (0..1,024), zero number."
#[derive(Clone, Copy)]
pub struct RevisionEntry {
    pub node: u8,
    pub plain: u8,
    pub head: Span,
    pub body: Span,
    pub zero: u16,
}

// 02, Wish 9: "sets of 32 bytes", which hold one of edition 1 too, with zeros above.
pub type Set = [u8; 32];

// 01, "A configuration and its transitions": "a plan (0 to 1,024 action numbers)": one byte an action.
pub type Plan = [u8; 1024];

// 01, "A configuration and its transitions": "a set of believed atoms, a set of goal atoms, a plan (0 to 1,024 action numbers)
// and a phase 0, 1 or 2": all of it but the plan's actions. What a caller hands in may be out of range: row 13. 02, Wish 4: "how
// many transitions have left the plan empty since load", which has no such rule.
#[derive(Clone, Copy)]
pub struct Mind {
    pub beliefs: Set,
    pub goals: Set,
    pub length: u16,
    pub phase: u8,
    pub finished: u16,
}

// Of a mind, all but its sets: how long the plan is, the phase, and the finished count. Where a configuration is lent in parts, its
// sets and its plan are changed where they lie, and this is handed on.
#[derive(Clone, Copy)]
pub struct Standing {
    pub length: u16,
    pub phase: u8,
    pub finished: u16,
}

// 01, "A configuration and its transitions": "A configuration is …": a mind, and the plan, whose first `length` bytes are its
// actions.
#[derive(Clone, Copy)]
pub struct Configuration {
    pub mind: Mind,
    pub plan: Plan,
}

// What `check` answers: 01, "Expected forms by place": "each check answers an enum": the card's layout, or the refusal.
pub type Checked = Result<Layout, Refusal>;

// What `load`, `take` and `restore` answer. 01, "Numbers the guide may answer": "the number and the configuration".
#[derive(Clone, Copy)]
pub struct Reply {
    pub answer: Answer,
    pub configuration: Configuration,
}

// What `grade` answers. 01, "Numbers the guide may answer": "load, restore and grading … answer the empty one".
#[derive(Clone, Copy)]
pub struct Graded {
    pub answer: Answer,
    pub verdict: Verdict,
    pub configuration: Configuration,
}

// What `save` answers. 01, "Numbers the guide may answer": "Saving writes 44 + L bytes and no others."
#[derive(Clone, Copy)]
pub struct Written {
    pub answer: Answer,
    pub count: u16,
    pub configuration: Configuration,
}

// What `list` answers. 01, "Numbers the guide may answer": "the answer tells how many". 02, Wish 11: "how many conditions one
// listing judges" and "how many goals are open".
#[derive(Clone, Copy)]
pub struct Listed {
    pub answer: Answer,
    pub count: u16,
    pub judged: u16,
    pub goals: u16,
    pub configuration: Configuration,
}

// What `run` answers. 01, "A configuration and its transitions": "the configuration reached, how many transitions were taken,
// and one of three endings".
#[derive(Clone, Copy)]
pub struct Ran {
    pub answer: Answer,
    pub count: u16,
    pub ending: Ending,
    pub configuration: Configuration,
}

// What comes next of the guide's own: a move, by its code; rest; or a move, by its code, whose plan would be too long.
#[derive(Clone, Copy)]
pub enum Coming {
    Move(u16),
    Rest,
    Full(u16),
}

// What `next` answers, with the configuration as it came in. 00, the card: "The guide shows the next move."
#[derive(Clone, Copy)]
pub struct Next {
    pub answer: Answer,
    pub coming: Coming,
    pub configuration: Configuration,
}

// 02, Wish 10: "show that 11 and the ending "full" cannot arise there, and take both out of these answers": the refusals of the two
// calls for bounded cards, in the order in which they are tested: 1 to 9, 13, 22, 14, 15 and 16 with the node that settled it.
#[derive(Clone, Copy)]
pub enum BoundedRefusal {
    Short,
    Mark,
    Count,
    Offsets,
    Weight,
    Node,
    Rule,
    ActionByte,
    Atom,
    Configuration,
    OpenOrHeavy,
    NoRule,
    Front,
    Condition(usize),
}

// 01, "Numbers the guide may answer": "done", row 0, or one of these.
pub type BoundedAnswer = Result<(), BoundedRefusal>;

// 02, Wish 10: "the ending "full" cannot arise there": the two others.
#[derive(Clone, Copy)]
pub enum BoundedEnding {
    // "when the count has reached" the budget
    Spent,
    // "when no transition exists"
    Rest,
}

// What a chosen move on a bounded card answers. 01, "Numbers the guide may answer": "the number and the configuration".
#[derive(Clone, Copy)]
pub struct BoundedReply {
    pub answer: BoundedAnswer,
    pub configuration: Configuration,
}

// What a run on a bounded card answers. 01, "A configuration and its transitions": "the configuration reached, how many transitions
// were taken", and one of two endings.
#[derive(Clone, Copy)]
pub struct BoundedRan {
    pub answer: BoundedAnswer,
    pub count: u16,
    pub ending: BoundedEnding,
    pub configuration: Configuration,
}
