// What a plan weighs that stands beside the card.
ghost use Rattle.std.specs.Prelude.{◌≡◌, ◌≤◌, take};
ghost use Rattle.runs.specs.Weight as Weight;
ghost use Rattle.meaning.specs.Card.{weight};
ghost use Rattle.card.specs.GoodCard.{GoodCard};

use layout::card::Card;
use meaning::Plan;

// The weight of an action, as the card has it; one that it does not have weighs 1 in the definitions, which give each a weight.
fn action_weight(card: &Card, action: u8) -> usize
    requires { GoodCard card.now.layout card.now.bytes.now }
    ensures { (result ≡ weight card.now.bytes.now action) × (result ≤ 1024) }
{
    let a = action as usize;
    if a < card.layout.actions as usize {
        card.weight(a)
    } else {
        1
    }
}

// The weight of a plan's first n actions, each occurrence counted: at most 1,024 times 1,024.
pub fn weigh(card: &Card, plan: &Plan, n: usize) -> usize
    requires { GoodCard card.now.layout card.now.bytes.now × (n ≤ 1024) }
    ensures { result ≡ Weight.weigh (weight card.now.bytes.now) (take n plan.now) }
{
    let mut total: usize = 0;
    for action in &plan[..n] {
        total += action_weight(card, *action);
    }
    total
}
