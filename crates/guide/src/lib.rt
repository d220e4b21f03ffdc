// The guide: the fourteen calls. Nothing is assumed of any byte or number; each contract cites one definition of the whole answer,
// refusals too, and of what a lent buffer holds afterwards. A configuration goes in and comes back by value.
#![tactic(auto)]

ghost use Rattle.std.specs.Prelude.{◌≡◌, ◌+◌, ◌≤◌, replicate};
ghost use Rattle.paper.specs.Theorems.{AreBytes};
ghost use Rattle.demands.specs.CallContracts.{Checks, Loads, Grades, Lists, Takes, Runs, Nexts, BoundedTakes, BoundedRuns, Saves, Restores, Shaped};
ghost use Rattle.deliberation.specs.Theorems.{GoesOn, Deliberates};
ghost use Rattle.layout.specs.PlaceParts.{configured};
ghost use Rattle.door.specs.InPlace.{reply_with, ran_with};
ghost use Rattle.bounded.specs.InPlace.{bounded_reply_with, bounded_ran_with};
ghost use Rattle.deliberate.specs.InPlace.{deliberated_with};
ghost use Rattle.names.specs.Naming.{asked, names, Names, name_of, place_of};

use bounded::in_place::{BoundedRanInPlace, BoundedReplyInPlace};
use deliberate::call::DeliberatedInPlace;
use deliberation::{Deliberated, Remaining};
use door::in_place::{RanInPlace, ReplyInPlace};
use meaning::{
    BoundedRan, BoundedReply, Checked, Configuration, Graded, Listed, Mind, Next, Plan, Ran, Reply,
    Set, Standing, Written,
};
use names::Named;

// Whether a card is accepted: its layout, or the first refusal of 1 to 9.
pub fn check(card: &[u8]) -> Checked
    ensures { Checks card.now result }
{
    card::check::check(card)
}

// A configuration of its parts.
fn whole(beliefs: Set, goals: Set, m: Standing, plan: Plan) -> Configuration
    ensures value { result ≡ configured beliefs goals m plan }
    ensures shaped { Shaped result }
{
    Configuration {
        mind: Mind {
            beliefs,
            goals,
            length: m.length,
            phase: m.phase,
            finished: m.finished,
        },
        plan,
    }
}

// All of a mind but its sets.
fn standing(m: Mind) -> Standing
    ensures { result ≡ record { length = m.length; phase = m.phase; finished = m.finished } }
{
    let Mind {
        length,
        phase,
        finished,
        ..
    } = m;
    Standing {
        length,
        phase,
        finished,
    }
}

// What was answered in place, with the sets and the plan.
fn reply_with(r: ReplyInPlace, beliefs: Set, goals: Set, plan: Plan) -> Reply
    ensures value { result ≡ reply_with r beliefs goals plan }
    ensures shaped { Shaped result.configuration }
{
    Reply {
        answer: r.answer,
        configuration: whole(beliefs, goals, r.standing, plan),
    }
}

// The configuration that a card starts with.
pub fn load(card: &[u8]) -> Reply
    ensures loads { Loads card.now result }
    ensures shaped { Shaped result.configuration }
{
    let mut beliefs = [0u8; 32];
    let mut goals = [0u8; 32];
    let mut plan = [0u8; 1024];
    let r = place::load::load(card, &mut beliefs, &mut goals, &mut plan);
    reply_with(r, beliefs, goals, plan)
}

// Bounded, or open with the first offender.
pub fn grade(card: &[u8]) -> Graded
    ensures { Grades card.now result }
{
    let r = verdict::grade::grade(card);
    let mut beliefs = [0u8; 32];
    let mut goals = [0u8; 32];
    let mut plan = [0u8; 1024];
    let none = place::load::set_empty(&mut beliefs, &mut goals, &mut plan);
    Graded {
        answer: r.answer,
        verdict: r.verdict,
        configuration: whole(beliefs, goals, none, plan),
    }
}

// All enabled choices, into a lent list; how many conditions were judged, and how many goals are open.
pub fn list(card: &[u8], c: Configuration, out: &mut [u16]) -> Listed
    ensures { Lists card.now c out.old result out.new }
{
    let r = listing::list::list(
        card,
        &c.mind.beliefs,
        &c.mind.goals,
        standing(c.mind),
        &c.plan,
        out,
    );
    Listed {
        answer: r.answer,
        count: r.count,
        judged: r.judged,
        goals: r.goals,
        configuration: c,
    }
}

// The chosen move, if it is a transition and its plan fits.
pub fn take(card: &[u8], c: Configuration, choice: u16) -> Reply
    ensures takes { Takes card.now c choice result }
    ensures shaped { Shaped result.configuration }
{
    let mut beliefs = c.mind.beliefs;
    let mut goals = c.mind.goals;
    let mut plan = c.plan;
    let r = moves::take::take(
        card,
        &mut beliefs,
        &mut goals,
        standing(c.mind),
        &mut plan,
        choice,
    );
    reply_with(r, beliefs, goals, plan)
}

// What a run answered in place, with the sets and the plan.
fn ran_with(r: RanInPlace, beliefs: Set, goals: Set, plan: Plan) -> Ran
    ensures value { result ≡ ran_with r beliefs goals plan }
    ensures shaped { Shaped result.configuration }
{
    Ran {
        answer: r.answer,
        count: r.count,
        ending: r.ending,
        configuration: whole(beliefs, goals, r.standing, plan),
    }
}

// At most budget moves of the guide's own.
pub fn run(card: &[u8], c: Configuration, budget: u16) -> Ran
    ensures runs { Runs card.now c budget result }
    ensures shaped { Shaped result.configuration }
{
    let mut beliefs = c.mind.beliefs;
    let mut goals = c.mind.goals;
    let mut plan = c.plan;
    let r = moves::run::run(
        card,
        &mut beliefs,
        &mut goals,
        standing(c.mind),
        &mut plan,
        budget,
    );
    ran_with(r, beliefs, goals, plan)
}

// What a chosen move on a bounded card answered in place, with the sets and the plan. This and `bounded_ran_with` stand beside
// `reply_with` and `ran_with`: `BoundedReply` and `BoundedRan` are types of their own, of which `as_reply` and `as_ran` speak.
fn bounded_reply_with(r: BoundedReplyInPlace, beliefs: Set, goals: Set, plan: Plan) -> BoundedReply
    ensures value { result ≡ bounded_reply_with r beliefs goals plan }
    ensures shaped { Shaped result.configuration }
{
    BoundedReply {
        answer: r.answer,
        configuration: whole(beliefs, goals, r.standing, plan),
    }
}

// The chosen move on a bounded card, from a plan that weighs at most 1,024: 11 is no answer.
pub fn take_bounded(card: &[u8], c: Configuration, choice: u16) -> BoundedReply
    ensures bounded_takes { BoundedTakes card.now c choice result }
    ensures shaped { Shaped result.configuration }
{
    let mut beliefs = c.mind.beliefs;
    let mut goals = c.mind.goals;
    let mut plan = c.plan;
    let r = bounded::take::take(
        card,
        &mut beliefs,
        &mut goals,
        standing(c.mind),
        &mut plan,
        choice,
    );
    bounded_reply_with(r, beliefs, goals, plan)
}

// What a run on a bounded card answered in place, with the sets and the plan.
fn bounded_ran_with(r: BoundedRanInPlace, beliefs: Set, goals: Set, plan: Plan) -> BoundedRan
    ensures value { result ≡ bounded_ran_with r beliefs goals plan }
    ensures shaped { Shaped result.configuration }
{
    BoundedRan {
        answer: r.answer,
        count: r.count,
        ending: r.ending,
        configuration: whole(beliefs, goals, r.standing, plan),
    }
}

// At most budget moves of the guide's own on a bounded card, from a plan that weighs at most 1,024: it ends spent or at rest.
pub fn run_bounded(card: &[u8], c: Configuration, budget: u16) -> BoundedRan
    ensures bounded_runs { BoundedRuns card.now c budget result }
    ensures shaped { Shaped result.configuration }
{
    let mut beliefs = c.mind.beliefs;
    let mut goals = c.mind.goals;
    let mut plan = c.plan;
    let r = bounded::run::run(
        card,
        &mut beliefs,
        &mut goals,
        standing(c.mind),
        &mut plan,
        budget,
    );
    bounded_ran_with(r, beliefs, goals, plan)
}

// The guide's own next move, which is not made: its code, or that it rests or is full.
pub fn next(card: &[u8], c: Configuration) -> Next
    ensures { Nexts card.now c result }
{
    let r = moves::next::next(
        card,
        &c.mind.beliefs,
        &c.mind.goals,
        standing(c.mind),
        &c.plan,
    );
    Next {
        answer: r.answer,
        coming: r.coming,
        configuration: c,
    }
}

// What a deliberation answered in place, with the sets, the plan and the numbers that remain.
fn deliberated_with(
    r: DeliberatedInPlace,
    beliefs: Set,
    goals: Set,
    plan: Plan,
    numbers: [u8; 128],
) -> Deliberated
    ensures value { result ≡ deliberated_with r beliefs goals plan numbers }
    ensures shaped { Shaped result.configuration }
{
    Deliberated {
        answer: r.answer,
        count: r.count,
        ending: r.ending,
        configuration: whole(beliefs, goals, r.standing, plan),
        remaining: Remaining {
            length: r.length,
            numbers,
        },
    }
}

// At most budget moves of a deliberation program.
pub fn deliberate(card: &[u8], program: &[u8], c: Configuration, budget: u16) -> Deliberated
    ensures deliberates { Deliberates card.now program.now c budget (replicate 128 0) result }
    ensures shaped { Shaped result.configuration }
{
    let mut beliefs = c.mind.beliefs;
    let mut goals = c.mind.goals;
    let mut plan = c.plan;
    let mut numbers = [0u8; 128];
    let r = deliberate::call::deliberate(
        card,
        program,
        &mut beliefs,
        &mut goals,
        standing(c.mind),
        &mut plan,
        budget,
        &mut numbers,
    );
    deliberated_with(r, beliefs, goals, plan, numbers)
}

// The same from given numbers that remain of the program, the next first.
pub fn go_on(
    card: &[u8],
    program: &[u8],
    given: &[u8],
    c: Configuration,
    budget: u16,
) -> Deliberated
    ensures goes_on { GoesOn card.now program.now given.now c budget (replicate 128 0) result }
    ensures shaped { Shaped result.configuration }
{
    let mut beliefs = c.mind.beliefs;
    let mut goals = c.mind.goals;
    let mut plan = c.plan;
    let mut numbers = [0u8; 128];
    let r = deliberate::call::go_on(
        card,
        program,
        given,
        &mut beliefs,
        &mut goals,
        standing(c.mind),
        &mut plan,
        budget,
        &mut numbers,
    );
    deliberated_with(r, beliefs, goals, plan, numbers)
}

// The configuration into a lent buffer: 44 + L bytes and no others.
pub fn save(card: &[u8], c: Configuration, out: &mut [u8]) -> Written
    ensures saves { Saves card.now c out.old result out.new }
    ensures shaped { Shaped c }
{
    let r = place::save::save(
        card,
        &c.mind.beliefs,
        &c.mind.goals,
        standing(c.mind),
        &c.plan,
        out,
    );
    Written {
        answer: r.answer,
        count: r.count,
        configuration: c,
    }
}

// The configuration that a place holds.
pub fn restore(card: &[u8], p: &[u8]) -> Reply
    ensures restores { Restores card.now p.now result }
    ensures shaped { Shaped result.configuration }
    ensures are_bytes { AreBytes p.now }
{
    let mut beliefs = [0u8; 32];
    let mut goals = [0u8; 32];
    let mut plan = [0u8; 1024];
    let r = place::restore::restore(card, p, &mut beliefs, &mut goals, &mut plan);
    reply_with(r, beliefs, goals, plan)
}

// The part that holds an action's name, of the shed's sheet or of the master's: which, and its start and length.
pub fn named(card: &[u8], shed: &[u8], master: &[u8], action: u16) -> Named
    ensures names { Names card.now (asked shed.now master.now action) result }
    ensures length_bound { result.part.start + result.part.length ≤ 65535 }
{
    names::name::named(card, shed, master, action as usize)
}

// The part itself.
pub fn name<'a>(card: &[u8], shed: &'a [u8], master: &'a [u8], action: u16) -> &'a [u8]
    ensures result_value { result.now ≡ name_of (names card.now (asked shed.now master.now action))
        shed.now master.now }
    ensures ref_ptr_value { result.ref_ptr ≡ place_of (names card.now (asked shed.now master.now action))
        shed.entry.ref_ptr master.entry.ref_ptr }
{
    names::name::name(card, shed, master, action as usize)
}
