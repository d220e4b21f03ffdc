// The door of a call that is handed a card and a configuration: "They are tested in the table's order, the card first".
ghost use Rattle.layout.specs.PlaceParts.{configured};
ghost use Rattle.door.specs.Admitted.{Admitted};

use crate::configuration::judge_configuration;
use card::check::accept;
use layout::card::Card;
use meaning::{Plan, Refusal, Set, Standing};

// An accepted card, where the configuration is accepted too, or the refusal: rows 1 to 9, then row 13.
pub fn admit<'a>(
    card: &'a [u8],
    beliefs: &Set,
    goals: &Set,
    m: Standing,
    plan: &Plan,
) -> Result<Card<'a>, Refusal>
    ensures { Admitted card.now (configured beliefs.now goals.now m plan.now) result }
{
    let card = accept(card)?;
    judge_configuration(card.layout, beliefs, goals, m, plan)?;
    Ok(card)
}
