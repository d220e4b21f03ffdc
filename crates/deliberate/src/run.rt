// A deliberation: moves one after the other, at most as many as the budget says.
ghost use Rattle.std.specs.Prelude.{◌≡◌, drop};
ghost use Rattle.door.specs.Words.{configured};
ghost use Rattle.deliberate.specs.Ran.{Starts, outcome_of, RanTo, stopped_by};

use crate::made::{MoveMade, Point, make_move};
use deliberation::DeliberationEnding;
use layout::card::Card;
use meaning::{Plan, Set, Standing};
use moves::run::refresh;

// What a deliberation comes to beside the sets, the plan and the numbers that remain: where these begin.
#[derive(Clone, Copy)]
pub struct RanMoves {
    pub standing: Standing,
    pub count: u16,
    pub ending: DeliberationEnding,
    pub top: usize,
}

// Where a deliberation ends.
fn ended(at: Point, count: u16, ending: DeliberationEnding) -> RanMoves
    ensures { result ≡ record { standing = at.standing; count = count; ending = ending; top = at.top } }
{
    RanMoves {
        standing: at.standing,
        count,
        ending,
        top: at.top,
    }
}

// Why a move that is not made ends a deliberation.
fn stopped(made: MoveMade) -> DeliberationEnding
    ensures { result ≡ stopped_by made }
{
    match made {
        MoveMade::On => DeliberationEnding::Spent,
        MoveMade::Stuck => DeliberationEnding::Stuck,
        MoveMade::Full => DeliberationEnding::Full,
    }
}

// "Endings, in this order: spent, finished, stuck, full." The nodes are judged at most once a move: their marks stay true until an
// action.
pub fn run_moves(
    card: &Card,
    beliefs: &mut Set,
    goals: &mut Set,
    at: Point,
    plan: &mut Plan,
    program: &[u8],
    budget: u16,
    stack: &mut [u8; 128],
) -> RanMoves
    requires { Starts card.now.layout card.now.bytes.now program.now (configured beliefs.old goals.old at.standing plan.old) stack.old at.top }
    ensures { RanTo (outcome_of card.now.layout card.now.bytes.now program.now budget
        (configured beliefs.old goals.old at.standing plan.old) (drop at.top stack.old))
        result (configured beliefs.new goals.new result.standing plan.new) stack.new }
{
    let mut here = at;
    let mut marks = [0; 256];
    let mut known = false;
    for count in 0..budget {
        if here.top == 128 {
            return ended(here, count, DeliberationEnding::Finished);
        }
        refresh(card, beliefs, goals, known, &mut marks);
        let moved = make_move(card, beliefs, goals, here, plan, &marks, program, stack);
        here.standing = moved.standing;
        let MoveMade::On = moved.made else {
            return ended(here, count, stopped(moved.made));
        };
        known = moved.known;
        here.top = moved.top;
    }
    ended(here, budget, DeliberationEnding::Spent)
}
