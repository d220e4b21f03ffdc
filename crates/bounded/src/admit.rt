// The door of the two calls: rows 1 to 9, then 13, then 22.
ghost use Rattle.std.specs.Prelude.{◌≡◌, ◌≤◌};
ghost use Rattle.meaning.specs.Card.{Bytes};
ghost use Rattle.meaning.specs.BoundedCalls.{bounded_good};
ghost use Rattle.door.specs.Words.{configured, GoodCard};
ghost use Rattle.bounded.specs.Admitted.{BoundedAdmitted};

use card::check::row;
use door::admit::admit;
use layout::card::Card;
use layout::limits::heaviest_plan;
use meaning::{Plan, Refusal, Set, Standing};
use runs::Verdict;
use verdict::grade::judge;
use verdict::weigh::weigh;

// Not row 22: "the card is open or the plan too heavy", which looks at no set. The plan is weighed first, which takes less.
fn bounded_good(card: &Card, m: Standing, plan: &Plan) -> bool
    requires { GoodCard card.now.layout card.now.bytes.now × (m.length ≤ 1024) }
    ensures { (b g : Bytes) → result ≡ bounded_good card.now.bytes.now (configured b g m plan.now) }
{
    if heaviest_plan() < weigh(card, plan, m.length as usize) {
        return false;
    }
    match judge(card) {
        Verdict::Bounded => true,
        Verdict::Open(_) => false,
    }
}

// An accepted card, where nothing is refused, or the refusal: rows 1 to 9, 13 and 22, in this order. The card is judged and graded
// once a call.
pub fn admit_bounded<'a>(
    card: &'a [u8],
    beliefs: &Set,
    goals: &Set,
    m: Standing,
    plan: &Plan,
) -> Result<Card<'a>, Refusal>
    ensures { BoundedAdmitted card.now (configured beliefs.now goals.now m plan.now) result }
{
    let card = admit(card, beliefs, goals, m, plan)?;
    row(bounded_good(&card, m, plan), Refusal::OpenOrHeavy)?;
    Ok(card)
}
