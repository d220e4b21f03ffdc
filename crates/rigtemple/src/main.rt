// Document 01's program: it reads a card on standard input (at most 24,129 bytes), loads it and runs it with budget 1,000, a line
// a step on standard output. Standard error says in words what is left.
#![tactic(auto)]

ghost use Rattle.std.specs.Prelude.{◌≤◌, ◌<◌};
ghost use Rattle.choices.specs.Judged.{SomeSets};

use answers::refusal_number;
use card::check::accept;
use choices::ask::{ask, choose};
use choices::truth::{Marks, judge_nodes};
use door::admit::admit;
use door::asked::{Asked, Choice};
use input::read_full;
use layout::card::Card;
use meaning::{Configuration, Mind, Plan, Set, Standing};
use moves::advance::advance_once;
use moves::step::Transition;
use runs::{Ending, Kind, Offender, Verdict};
use std::{fmt, io};

// ---- the lines

// A choice as the lines have it: the kind in a word, and the number.
#[derive(Drop)]
struct Shown(Choice);

impl fmt::Display for Shown {
    fn fmt<W: fmt::Write>(&self, f: &mut fmt::Formatter<W>) -> fmt::Result {
        let kind = match self.0.kind {
            Kind::Selection => "select",
            Kind::Action => "act",
            Kind::Revision => "revise",
        };
        write!(f, "{kind} {}", self.0.number)
    }
}

// "First line: bytes, verdict (bounded or open)."
fn first_line(rt: HostRuntime, bytes: usize, verdict: Verdict) -> io::Result<()> {
    let verdict = match verdict {
        Verdict::Bounded => "bounded",
        Verdict::Open(_) => "open",
    };
    println!(rt; "card {bytes} {verdict}")
}

// "Last: ending (rest, spent, full), count."
fn last_line(rt: HostRuntime, ending: Ending, count: u16) -> io::Result<()> {
    let ending = match ending {
        Ending::Rest => "rest",
        Ending::Spent => "spent",
        Ending::Full => "full",
    };
    println!(rt; "{ending} {count}")
}

// The weight of an action, as the card has it; 0 if it has none.
fn weight(card: &Card, action: u8) -> u64
    ensures { result ≤ 65535 }
{
    let action = action as usize;
    if action < card.layout.actions as usize {
        card.weight(action) as u64
    } else {
        0
    }
}

// The weight of a plan of n actions.
fn plan_weight(card: &Card, plan: &Plan, n: usize) -> u64 {
    let mut total: u64 = 0;
    for action in &plan[..n.min(plan.len())] {
        total += weight(card, *action);
    }
    total
}

// ---- what is left, in words, on standard error

// "the verdict carries the first offender: the initial plan, then selection rule n, then revision rule n"
fn say_offender(rt: HostRuntime, offender: Offender) -> io::Result<()> {
    eprint!(rt; "the card is open: ")?;
    match offender {
        Offender::InitialPlan => eprintln!(rt; "the initial plan weighs over 1,024"),
        Offender::Selection(n) => eprintln!(rt; "selection {n} has a plan that weighs over 1,024"),
        Offender::Revision(n) => eprintln!(rt;
            "revision {n} has a body that is not lighter than its head"
        ),
    }
}

// What a designer may not have meant: that the card is open, or begins with no goal.
fn say_doubts(rt: HostRuntime, verdict: Verdict, goals: Set) -> io::Result<()> {
    if let Verdict::Open(offender) = verdict {
        say_offender(rt, offender)?;
    }
    if sets::known(goals, 0) {
        eprintln!(rt; "the card begins with no goal")?;
    }
    Ok(())
}

// The goals that are open, by their atoms.
fn say_goals(rt: HostRuntime, goals: Set) -> io::Result<()> {
    eprint!(rt; "goals open:")?;
    let mut none = true;
    for atom in 0..=255u8 {
        if sets::member(goals, atom) {
            let comma = if none { "" } else { "," };
            eprint!(rt; "{comma} atom {atom}")?;
            none = false;
        }
    }
    if none {
        eprint!(rt; " none")?;
    }
    eprintln!(rt)
}

// How many actions are in the plan, and its first.
fn say_plan(rt: HostRuntime, length: u16, first: u8) -> io::Result<()> {
    eprint!(rt; "actions in the plan: ")?;
    if length == 0 {
        eprintln!(rt; "none")
    } else {
        eprintln!(rt; "{length}, the first is action {first}")
    }
}

// What is said of the choices of a kind, none of which is enabled.
#[derive(Drop)]
struct Words {
    // that false conditions close those that follow
    closed: &'static str,
    // what each of them is
    choice: &'static str,
    // that there is none for the front of the plan
    front: &'static str,
}

// The words of a kind.
fn words_of(kind: Kind) -> Words {
    match kind {
        Kind::Selection => Words {
            closed: "a condition is false in",
            choice: "selection",
            front: "the card has none",
        },
        Kind::Action => Words {
            closed: "the condition is false in",
            choice: "specification",
            front: "it has no specification",
        },
        Kind::Revision => Words {
            closed: "the plan begins with the head, but the condition is false in",
            choice: "revision",
            front: "the plan begins with the head of none",
        },
    }
}

// Why no choice of a kind is enabled: the numbers of those that only a false condition closes, or that there are none.
fn say_closed(
    rt: HostRuntime,
    card: &Card,
    m: Standing,
    plan: &Plan,
    marks: &Marks,
    kind: Kind,
) -> io::Result<()>
    requires { SomeSets card.now.layout card.now.bytes.now m plan.now marks.now }
{
    let words = words_of(kind);
    let mut none = true;
    for number in 0..card.count_of(kind) {
        let choice = Choice { kind, number };
        if let Asked::Condition(_) = ask(card, m, plan, marks, choice) {
            if none {
                eprint!(rt; " {}", words.closed)?;
            } else {
                eprint!(rt; ",")?;
            }
            eprint!(rt; " {} {number}", words.choice)?;
            none = false;
        }
    }
    if none {
        eprint!(rt; " {}", words.front)?;
    }
    eprintln!(rt)
}

// Why there is no move: with an empty plan by the selections, where a goal is open; else by the specifications and the revisions.
fn say_no_move(
    rt: HostRuntime,
    card: &Card,
    goals: Set,
    m: Standing,
    plan: &Plan,
    marks: &Marks,
) -> io::Result<()>
    requires { SomeSets card.now.layout card.now.bytes.now m plan.now marks.now }
{
    if m.length != 0 {
        eprint!(rt; "action {} has no move:", plan[0])?;
        say_closed(rt, card, m, plan, marks, Kind::Action)?;
        eprint!(rt; "no revision fits:")?;
        say_closed(rt, card, m, plan, marks, Kind::Revision)
    } else if sets::known(goals, 0) {
        Ok(())
    } else {
        eprint!(rt; "no selection fits:")?;
        say_closed(rt, card, m, plan, marks, Kind::Selection)
    }
}

// The move that the guide would make next, or why there is none.
fn say_next(
    rt: HostRuntime,
    card: &Card,
    goals: Set,
    m: Standing,
    plan: &Plan,
    marks: &Marks,
    ending: Ending,
) -> io::Result<()>
    requires { SomeSets card.now.layout card.now.bytes.now m plan.now marks.now }
{
    let Some(choice) = choose(card, m, plan, marks) else {
        return say_no_move(rt, card, goals, m, plan, marks);
    };
    let next = match ending {
        Ending::Rest => "the next move would be",
        Ending::Spent => "1,000 moves are made, and the next would be",
        Ending::Full => "over 1,024 actions would be in the plan after the next move, which is",
    };
    eprintln!(rt; "{next} {}", Shown(choice))
}

// The same, of a card and a configuration that are judged first.
fn say_why(
    rt: HostRuntime,
    card: &[u8],
    beliefs: &Set,
    goals: &Set,
    m: Standing,
    plan: &Plan,
    ending: Ending,
) -> io::Result<()> {
    let Ok(card) = admit(card, beliefs, goals, m, plan) else {
        return Ok(());
    };
    let mut marks = [0; 256];
    judge_nodes(&card, beliefs, goals, &mut marks);
    say_next(rt, &card, *goals, m, plan, &marks, ending)
}

// ---- the run

// The last line of a run, and what is left: the goals, the plan, and the next move or why there is none. Where there are step
// lines, what their numbers are.
fn ended(
    rt: HostRuntime,
    card: &[u8],
    beliefs: &Set,
    goals: &Set,
    m: Standing,
    plan: &Plan,
    ending: Ending,
    count: u16,
) -> io::Result<()> {
    last_line(rt, ending, count)?;
    if 0 < count {
        eprintln!(rt;
            "select 0 is selection 0, act 0 is specification 0 (not action 0), revise 0 is revision 0"
        )?;
    }
    say_goals(rt, *goals)?;
    say_plan(rt, m.length, plan[0])?;
    say_why(rt, card, beliefs, goals, m, plan, ending)
}

// The run with budget 1,000, a move of the guide's own at a time, and a line for each: "Step lines: count, kind, number, plan
// length after, plan weight after."
fn steps(rt: HostRuntime, card: &Card, start: Configuration) -> io::Result<()> {
    let Mind {
        mut beliefs,
        mut goals,
        length,
        phase,
        finished,
    } = start.mind;
    let mut plan = start.plan;
    let mut m = Standing {
        length,
        phase,
        finished,
    };
    for count in 0..1000u16 {
        let step = advance_once(card.bytes, &mut beliefs, &mut goals, m, &mut plan).step;
        let ending = match step.transition {
            Transition::Taken(choice) => {
                m = step.standing;
                let weight = plan_weight(card, &plan, m.length as usize);
                println!(rt; "{} {} {} {weight}", count + 1, Shown(choice), m.length)?;
                continue;
            }
            Transition::Nothing => Ending::Rest,
            Transition::Full => Ending::Full,
        };
        return ended(rt, card.bytes, &beliefs, &goals, m, &plan, ending, count);
    }
    ended(
        rt,
        card.bytes,
        &beliefs,
        &goals,
        m,
        &plan,
        Ending::Spent,
        1000,
    )
}

// The lines of an accepted card.
fn show_run(rt: HostRuntime, card: &Card) -> io::Result<()> {
    let start = guide::load(card.bytes).configuration;
    let verdict = guide::grade(card.bytes).verdict;
    first_line(rt, card.bytes.len(), verdict)?;
    say_doubts(rt, verdict, start.mind.goals)?;
    steps(rt, card, start)
}

// A card's lines: "A refused card prints only "refused" and its number."
fn show(rt: HostRuntime, card: &[u8]) -> io::Result<()> {
    match accept(card) {
        Ok(card) => show_run(rt, &card),
        Err(refusal) => println!(rt; "refused {}", refusal_number(refusal)),
    }
}

fn main(rt: HostRuntime) -> io::Result<()> {
    let mut buffer = [0u8; 32353];
    let n = read_full(&mut rt.stdin(), &mut buffer)?;
    show(rt, &buffer[..n])
}
