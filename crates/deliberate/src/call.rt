// The calls `deliberate` and `go on` (02, Wish 6), where sets, plan and the numbers that remain are lent: the card, the program,
// the given numbers and the configuration are checked in this order. A refusal writes to no lent buffer.
ghost use Rattle.std.specs.Prelude.{◌≡◌, true, [], ◌∷◌, ◌-◌, ◌/◌, ◌≤◌, length, drop, Ok};
ghost use Rattle.door.specs.Words.{configured};
ghost use Rattle.meaning.specs.Card.{layout};
ghost use Rattle.meaning.specs.Calls.{checks};
ghost use Rattle.deliberation.specs.Entries.{entry_count, numbers_good};
ghost use Rattle.deliberation.specs.Deliberate.{deliberate, remaining_of, deliberated, goes_on, deliberates};
ghost use Rattle.program.specs.GoodProgram.{GoodProgram};
ghost use Rattle.deliberate.specs.InPlace.{remains, refused_with, deliberated_with, Admits};
ghost use Rattle.deliberate.specs.Ran.{Starts, outcome_of};

use crate::made::Point;
use crate::run::run_moves;
use card::check::{accept, answer_of};
use deliberation::DeliberationEnding;
use door::configuration::judge_configuration;
use layout::bytes::{byte_below, down};
use layout::card::Card;
use layout::header::read_layout;
use meaning::{Answer, Plan, Refusal, Set, Standing};
use plans::clear;
use program::judge_program;

// Of `Deliberated`, all but what the lent sets, the lent plan and the lent numbers hold: how many of these remain.
#[derive(Clone, Copy)]
pub struct DeliberatedInPlace {
    pub standing: Standing,
    pub answer: Answer,
    pub count: u16,
    pub ending: DeliberationEnding,
    pub length: u8,
}

// A refusal: count 0, none remains, all else as it came in.
fn refused(answer: Answer, m: Standing) -> DeliberatedInPlace
    ensures { result ≡ refused_with answer m }
{
    DeliberatedInPlace {
        answer,
        count: 0,
        ending: DeliberationEnding::Spent,
        standing: m,
        length: 0,
    }
}

// Rows 1 to 9, of the card, then 19, of the program.
fn check_program(card: &[u8], program: &[u8]) -> Answer
    ensures { Admits card.now program.now result }
{
    let accepted = accept(card);
    let Ok(card) = accepted else {
        return answer_of(accepted);
    };
    judge_program(&card, program)
}

// Whether a deliberation may go on from given numbers: each, plus how many stand behind it, is below the number of entries.
fn numbers_good(given: &[u8], entries: usize) -> bool
    ensures { result ≡ numbers_good entries given.now }
{
    let n = given.len();
    if entries < n {
        return false;
    }
    for i in 0..n {
        if !byte_below(given[i], entries - (n - i - 1)) {
            return false;
        }
    }
    true
}

// The given numbers, at the end of the lent ones.
fn put_numbers(remaining: &mut [u8; 128], given: &[u8])
    requires { length given.now ≤ 128 }
    ensures { (drop (128 - length given.now) remaining.new ≡ given.now)
        × (length remaining.new ≡ 128) }
{
    remaining[128 - given.len()..].copy_from_slice(given);
}

// The numbers from top on to the front, and zeros behind them.
fn hand_out(remaining: &mut [u8; 128], top: usize) -> u8
    requires { (top ≤ 128) × (length remaining.old ≡ 128) }
    ensures { remains result remaining.new ≡ remaining_of (drop top remaining.old) }
{
    let n = 128 - top;
    down(remaining, 0, top, n);
    clear(remaining, n, 128);
    n as u8
}

// The moves of an accepted card, program and configuration, from accepted numbers.
fn from_moves(
    card: &Card,
    beliefs: &mut Set,
    goals: &mut Set,
    at: Point,
    plan: &mut Plan,
    program: &[u8],
    budget: u16,
    remaining: &mut [u8; 128],
) -> DeliberatedInPlace
    requires { Starts card.now.layout card.now.bytes.now program.now (configured beliefs.old goals.old at.standing plan.old) remaining.old at.top }
    ensures { deliberated_with result beliefs.new goals.new plan.new remaining.new
        ≡ deliberated (outcome_of card.now.layout card.now.bytes.now program.now budget
        (configured beliefs.old goals.old at.standing plan.old) (drop at.top remaining.old)) }
{
    let ran = run_moves(card, beliefs, goals, at, plan, program, budget, remaining);
    DeliberatedInPlace {
        answer: Ok(()),
        count: ran.count,
        ending: ran.ending,
        standing: ran.standing,
        length: hand_out(remaining, ran.top),
    }
}

// Row 13, then the moves. The layout of the card, which was checked, is read again: it stands in no frame above this one.
fn from_configuration(
    card: &[u8],
    beliefs: &mut Set,
    goals: &mut Set,
    m: Standing,
    plan: &mut Plan,
    program: &[u8],
    given: &[u8],
    budget: u16,
    remaining: &mut [u8; 128],
) -> DeliberatedInPlace
    requires { (checks card.now ≡ Ok (layout card.now)) × GoodProgram (layout card.now) card.now program.now
        × (numbers_good (entry_count program.now) given.now ≡ true) }
    ensures { deliberated_with result beliefs.new goals.new plan.new remaining.new
        ≡ goes_on card.now program.now given.now
        (configured beliefs.old goals.old m plan.old) budget remaining.old }
{
    let layout = read_layout(card);
    let card = Card {
        bytes: card,
        layout,
    };
    let judged = judge_configuration(card.layout, beliefs, goals, m, plan);
    let Ok(()) = judged else {
        return refused(judged, m);
    };
    put_numbers(remaining, given);
    let first = Point {
        standing: m,
        top: 128 - given.len(),
    };
    from_moves(
        &card, beliefs, goals, first, plan, program, budget, remaining,
    )
}

// The whole program, as the numbers that remain before the first move.
fn whole_program(entries: usize) -> [u8; 1]
    requires { (1 ≤ entries) × (entries ≤ 128) }
    ensures { result ≡ (entries - 1) ∷ [] }
{
    [(entries - 1) as u8]
}

// What is reached, how many moves were made, why it ended, and how many numbers remain; sets and plan are changed in place, and all
// of the lent numbers are written, unless it is refused.
pub fn deliberate(
    card: &[u8],
    program: &[u8],
    beliefs: &mut Set,
    goals: &mut Set,
    m: Standing,
    plan: &mut Plan,
    budget: u16,
    remaining: &mut [u8; 128],
) -> DeliberatedInPlace
    ensures { deliberated_with result beliefs.new goals.new plan.new remaining.new
        ≡ deliberates card.now program.now
        (configured beliefs.old goals.old m plan.old) budget remaining.old }
{
    let checked = check_program(card, program);
    let Ok(()) = checked else {
        return refused(checked, m);
    };
    let given = whole_program(program.len() / 4);
    from_configuration(
        card, beliefs, goals, m, plan, program, &given, budget, remaining,
    )
}

// The same from given numbers that remain: 19 for those that cannot, in its place.
pub fn go_on(
    card: &[u8],
    program: &[u8],
    given: &[u8],
    beliefs: &mut Set,
    goals: &mut Set,
    m: Standing,
    plan: &mut Plan,
    budget: u16,
    remaining: &mut [u8; 128],
) -> DeliberatedInPlace
    ensures { deliberated_with result beliefs.new goals.new plan.new remaining.new
        ≡ goes_on card.now program.now given.now
        (configured beliefs.old goals.old m plan.old) budget remaining.old }
{
    let checked = check_program(card, program);
    let Ok(()) = checked else {
        return refused(checked, m);
    };
    if !numbers_good(given, program.len() / 4) {
        return refused(Err(Refusal::Program), m);
    }
    from_configuration(
        card, beliefs, goals, m, plan, program, given, budget, remaining,
    )
}
