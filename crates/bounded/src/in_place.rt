// What the two calls answer where sets and plan are lent: all of `BoundedReply` and `BoundedRan` but what these hold.
use meaning::{BoundedAnswer, BoundedEnding, Standing};

// Of `BoundedReply`.
#[derive(Clone, Copy)]
pub struct BoundedReplyInPlace {
    pub answer: BoundedAnswer,
    pub standing: Standing,
}

// Of `BoundedRan`.
#[derive(Clone, Copy)]
pub struct BoundedRanInPlace {
    pub answer: BoundedAnswer,
    pub count: u16,
    pub ending: BoundedEnding,
    pub standing: Standing,
}
