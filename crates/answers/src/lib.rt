// The numbers in which what the guide answers is told to others: the header, the drill and the program. Each is a function with a
// name of its own, which docs/PROMISES.md and the calls for C cite, and no `From`.
#![tactic(auto)]

ghost use Rattle.std.specs.Prelude.{◌≡◌, ◌<◌};
ghost use Rattle.meaning.specs.Refusals.{number_of, answer_number, carried, answer_carried};
ghost use Rattle.meaning.specs.Numbers.{sheet_number, ending_number, coming_number, coming_choice};
ghost use Rattle.meaning.specs.Numbers.{verdict_number, offender_number, offender_rule, verdict_offender, verdict_rule};
ghost use Rattle.meaning.specs.BoundedCalls.{as_refusal, as_answer, as_ending};
ghost use Rattle.deliberation.specs.Deliberate.{deliberation_ending_number};

use deliberation::DeliberationEnding;
use meaning::{Answer, BoundedAnswer, BoundedEnding, BoundedRefusal, Coming, Refusal};
use runs::{Ending, Offender, Verdict};

// A refusal's number.
#[tactic(auto, unfolding(meaning::specs::Refusals::number_of))]
pub fn refusal_number(r: Refusal) -> u16
    ensures { result ≡ number_of r }
{
    match r {
        Refusal::Short => 1,
        Refusal::Mark => 2,
        Refusal::Count => 3,
        Refusal::Offsets => 4,
        Refusal::Weight => 5,
        Refusal::Node => 6,
        Refusal::Rule => 7,
        Refusal::ActionByte => 8,
        Refusal::Atom => 9,
        Refusal::Configuration => 13,
        Refusal::NoRule => 14,
        Refusal::Front => 15,
        Refusal::Condition(_) => 16,
        Refusal::PlanFull => 11,
        Refusal::NoRoom => 12,
        Refusal::Text(_) => 17,
        Refusal::Nested => 18,
        Refusal::Large => 25,
        Refusal::Program => 19,
        Refusal::Sheet(_) => 20,
        Refusal::NoAction => 21,
        Refusal::OpenOrHeavy => 22,
    }
}

// An answer's number: 0 for done.
#[tactic(auto, unfolding(meaning::specs::Refusals::answer_number))]
pub fn answer_number(a: Answer) -> u16
    ensures { result ≡ answer_number a }
{
    match a {
        Ok(()) => 0,
        Err(r) => refusal_number(r),
    }
}

// The number that a refusal carries: 02, Wish 1: "16 a condition is false, with the node"; Wish 2: "17 text, with the place";
// Wish 8: "20 a sheet …, the shed's before the master", which it is. 0 where it carries none.
#[tactic(auto, unfolding(meaning::specs::Refusals::carried))]
fn refusal_carried(r: Refusal) -> usize
    ensures { result ≡ carried r }
{
    match r {
        Refusal::Condition(node) => node,
        Refusal::Text(place) => place,
        Refusal::Sheet(sheet) => sheet,
        _ => 0,
    }
}

// The number that an answer carries, 0 where it carries none.
#[tactic(auto, unfolding(meaning::specs::Refusals::answer_carried))]
pub fn answer_carried(a: Answer) -> usize
    ensures { result ≡ answer_carried a }
{
    match a {
        Ok(()) => 0,
        Err(r) => refusal_carried(r),
    }
}

// Which sheet is told: that of the part, and with 20 the refused one. The part's sheet comes as its number, as `Refusal::Sheet`
// carries one: the enum is of `names`, on which this crate does not build.
#[tactic(auto, unfolding(meaning::specs::Numbers::sheet_number))]
pub fn sheet_number(a: Answer, sheet: usize) -> u8
    requires { sheet_number a sheet < 256 }
    ensures { result ≡ sheet_number a sheet }
{
    match a {
        Ok(()) => sheet as u8,
        Err(r) => refusal_carried(r) as u8,
    }
}

// An ending's number.
#[tactic(auto, unfolding(meaning::specs::Numbers::ending_number))]
pub fn ending_number(e: Ending) -> u8
    ensures { result ≡ ending_number e }
{
    match e {
        Ending::Spent => 0,
        Ending::Rest => 1,
        Ending::Full => 2,
    }
}

// The number of a refusal of the calls for bounded cards: the table's.
#[tactic(auto, unfolding(meaning::specs::Refusals::number_of, meaning::specs::BoundedCalls::as_refusal))]
fn bounded_refusal_number(r: BoundedRefusal) -> u16
    ensures { result ≡ number_of (as_refusal r) }
{
    match r {
        BoundedRefusal::Short => 1,
        BoundedRefusal::Mark => 2,
        BoundedRefusal::Count => 3,
        BoundedRefusal::Offsets => 4,
        BoundedRefusal::Weight => 5,
        BoundedRefusal::Node => 6,
        BoundedRefusal::Rule => 7,
        BoundedRefusal::ActionByte => 8,
        BoundedRefusal::Atom => 9,
        BoundedRefusal::Configuration => 13,
        BoundedRefusal::OpenOrHeavy => 22,
        BoundedRefusal::NoRule => 14,
        BoundedRefusal::Front => 15,
        BoundedRefusal::Condition(_) => 16,
    }
}

// The number of their answer: 0 for done.
#[tactic(auto, unfolding(meaning::specs::Refusals::answer_number, meaning::specs::BoundedCalls::as_answer))]
pub fn bounded_answer_number(a: BoundedAnswer) -> u16
    ensures { result ≡ answer_number (as_answer a) }
{
    match a {
        Ok(()) => 0,
        Err(r) => bounded_refusal_number(r),
    }
}

// The node that a refusal of theirs carries, 0 where it carries none.
#[tactic(auto, unfolding(meaning::specs::Refusals::carried, meaning::specs::BoundedCalls::as_refusal))]
fn bounded_refusal_carried(r: BoundedRefusal) -> usize
    ensures { result ≡ carried (as_refusal r) }
{
    if let BoundedRefusal::Condition(node) = r {
        node
    } else {
        0
    }
}

// The node that their answer carries, 0 where it carries none.
#[tactic(auto, unfolding(meaning::specs::Refusals::answer_carried, meaning::specs::BoundedCalls::as_answer))]
pub fn bounded_answer_carried(a: BoundedAnswer) -> usize
    ensures { result ≡ answer_carried (as_answer a) }
{
    match a {
        Ok(()) => 0,
        Err(r) => bounded_refusal_carried(r),
    }
}

// The number of the bounded run's ending: that which it has as an ending of run.
#[tactic(auto, unfolding(meaning::specs::Numbers::ending_number, meaning::specs::BoundedCalls::as_ending))]
pub fn bounded_ending_number(e: BoundedEnding) -> u8
    ensures { result ≡ ending_number (as_ending e) }
{
    match e {
        BoundedEnding::Spent => 0,
        BoundedEnding::Rest => 1,
    }
}

// The number of what comes next.
#[tactic(auto, unfolding(meaning::specs::Numbers::coming_number))]
pub fn coming_number(k: Coming) -> u8
    ensures { result ≡ coming_number k }
{
    match k {
        Coming::Move(_) => 0,
        Coming::Rest => 1,
        Coming::Full(_) => 2,
    }
}

// The code of what comes next, 0 at rest.
#[tactic(auto, unfolding(meaning::specs::Numbers::coming_choice))]
pub fn coming_choice(k: Coming) -> u16
    ensures { result ≡ coming_choice k }
{
    match k {
        Coming::Move(code) | Coming::Full(code) => code,
        Coming::Rest => 0,
    }
}

// A deliberation's ending's number.
#[tactic(auto, unfolding(deliberation::specs::Deliberate::deliberation_ending_number))]
pub fn deliberation_ending_number(e: DeliberationEnding) -> u8
    ensures { result ≡ deliberation_ending_number e }
{
    match e {
        DeliberationEnding::Spent => 0,
        DeliberationEnding::Finished => 1,
        DeliberationEnding::Stuck => 2,
        DeliberationEnding::Full => 3,
    }
}

// A verdict's number.
#[tactic(auto, unfolding(meaning::specs::Numbers::verdict_number))]
pub fn verdict_number(v: Verdict) -> u8
    ensures { result ≡ verdict_number v }
{
    match v {
        Verdict::Bounded => 0,
        Verdict::Open(_) => 1,
    }
}

// The number of an offender's kind.
#[tactic(auto, unfolding(meaning::specs::Numbers::offender_number))]
fn offender_number(o: Offender) -> u8
    ensures { result ≡ offender_number o }
{
    match o {
        Offender::InitialPlan => 1,
        Offender::Selection(_) => 2,
        Offender::Revision(_) => 3,
    }
}

// The number of a verdict's offender, 0 for none.
#[tactic(auto, unfolding(meaning::specs::Numbers::verdict_offender))]
pub fn verdict_offender(v: Verdict) -> u8
    ensures { result ≡ verdict_offender v }
{
    match v {
        Verdict::Bounded => 0,
        Verdict::Open(o) => offender_number(o),
    }
}

// The number of the rule that an offender is.
#[tactic(auto, unfolding(meaning::specs::Numbers::offender_rule))]
fn offender_rule(o: Offender) -> u16
    requires { offender_rule o < 65536 }
    ensures { result ≡ offender_rule o }
{
    match o {
        Offender::InitialPlan => 0,
        Offender::Selection(n) | Offender::Revision(n) => n as u16,
    }
}

// The number of the rule that a verdict's offender is.
#[tactic(auto, unfolding(meaning::specs::Numbers::verdict_rule))]
pub fn verdict_rule(v: Verdict) -> u16
    requires { verdict_rule v < 65536 }
    ensures { result ≡ verdict_rule v }
{
    match v {
        Verdict::Bounded => 0,
        Verdict::Open(o) => offender_rule(o),
    }
}
