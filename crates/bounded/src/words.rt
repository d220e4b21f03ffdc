// The table's words in those of the two calls, which have none for 11 and "full".
ghost use Rattle.std.specs.Prelude.{◌≡◌, Err};
ghost use Rattle.meaning.specs.BoundedCalls.{as_refusal, as_answer, as_ending, HasWord, HasEnding};

use meaning::{Answer, BoundedAnswer, BoundedEnding, BoundedRefusal, Refusal};
use runs::Ending;

// A refusal for which they have a word. Another does not come here.
#[tactic(auto, unfolding(meaning::specs::BoundedCalls::as_refusal))]
fn refusal_word(r: Refusal) -> BoundedRefusal
    requires { HasWord (Err r) }
    ensures { as_refusal result ≡ r }
{
    match r {
        Refusal::Short => BoundedRefusal::Short,
        Refusal::Mark => BoundedRefusal::Mark,
        Refusal::Count => BoundedRefusal::Count,
        Refusal::Offsets => BoundedRefusal::Offsets,
        Refusal::Weight => BoundedRefusal::Weight,
        Refusal::Node => BoundedRefusal::Node,
        Refusal::Rule => BoundedRefusal::Rule,
        Refusal::ActionByte => BoundedRefusal::ActionByte,
        Refusal::Atom => BoundedRefusal::Atom,
        Refusal::Configuration => BoundedRefusal::Configuration,
        Refusal::OpenOrHeavy => BoundedRefusal::OpenOrHeavy,
        Refusal::NoRule => BoundedRefusal::NoRule,
        Refusal::Front => BoundedRefusal::Front,
        Refusal::Condition(node) => BoundedRefusal::Condition(node),
        _ => BoundedRefusal::OpenOrHeavy,
    }
}

// An answer for which they have a word.
#[tactic(auto, unfolding(meaning::specs::BoundedCalls::as_answer))]
pub fn answer_word(a: Answer) -> BoundedAnswer
    requires { HasWord a }
    ensures { as_answer result ≡ a }
{
    match a {
        Ok(()) => Ok(()),
        Err(r) => Err(refusal_word(r)),
    }
}

// An ending for which the run has a word: "full" does not come here.
#[tactic(auto, unfolding(meaning::specs::BoundedCalls::as_ending))]
pub fn ending_word(e: Ending) -> BoundedEnding
    requires { HasEnding e }
    ensures { as_ending result ≡ e }
{
    match e {
        Ending::Spent => BoundedEnding::Spent,
        Ending::Rest | Ending::Full => BoundedEnding::Rest,
    }
}
