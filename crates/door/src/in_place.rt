// What a call answers where sets and plan are lent: all of `Reply`, `Written` and `Ran` but what these hold.
ghost use Rattle.std.specs.Prelude.{◌≡◌};
ghost use Rattle.door.specs.InPlace.{written_by};

use meaning::{Answer, Refusal, Standing};
use runs::Ending;

// Of `Reply`.
#[derive(Clone, Copy)]
pub struct ReplyInPlace {
    pub answer: Answer,
    pub standing: Standing,
}

// Of `Written`.
#[derive(Clone, Copy)]
pub struct WrittenInPlace {
    pub answer: Answer,
    pub count: u16,
}

// "Any count in a refusal is 0."
pub fn refused_write(answer: Answer) -> WrittenInPlace
    ensures { result ≡ record { answer = answer; count = 0 } }
{
    WrittenInPlace {
        answer: answer,
        count: 0,
    }
}

// How many bytes were written, or the refusal.
pub fn written(r: Result<u16, Refusal>) -> WrittenInPlace
    ensures { result ≡ written_by r }
{
    match r {
        Ok(count) => WrittenInPlace {
            answer: Ok(()),
            count,
        },
        Err(refusal) => refused_write(Err(refusal)),
    }
}

// Of `Ran`.
#[derive(Clone, Copy)]
pub struct RanInPlace {
    pub answer: Answer,
    pub count: u16,
    pub ending: Ending,
    pub standing: Standing,
}
