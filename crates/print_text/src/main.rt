// Reads a card on standard input and writes it on standard output as a text card: its lists as they are, each condition by the
// printer. A line whose condition cannot be printed is left out, with a remark in its place. A refused card prints only `refused`
// and its number.
#![tactic(auto)]

ghost use Rattle.std.specs.Prelude.{◌<◌};
ghost use Rattle.layout.specs.GoodLayout.{TwoByteSpan};

use answers::refusal_number;
use card::check::accept;
use input::read_full;
use layout::card::Card;
use meaning::{Refusal, Set, Span};
use std::{fmt, io};

// ---- lists

// A set as a list.
#[derive(Drop)]
struct Atoms(Set);

impl fmt::Display for Atoms {
    fn fmt<W: fmt::Write>(&self, f: &mut fmt::Formatter<W>) -> fmt::Result {
        for atom in 0..=255u8 {
            if sets::member(self.0, atom) {
                write!(f, " {atom}")?;
            }
        }
        Ok(())
    }
}

// A plan as a list of its actions.
#[derive(Drop)]
struct Actions<'a>(&'a [u8]);

impl fmt::Display for Actions<'_> {
    fn fmt<W: fmt::Write>(&self, f: &mut fmt::Formatter<W>) -> fmt::Result {
        for action in self.0 {
            write!(f, " {action}")?;
        }
        Ok(())
    }
}

// The actions of a plan of the card.
fn actions_of<'a>(card: &Card<'a>, plan: Span) -> Actions<'a>
    requires { TwoByteSpan plan }
{
    let from = card.pool_at(plan.start);
    let to = from + plan.length as usize;
    Actions(card.bytes.get(from..to).unwrap_or(&[]))
}

// ---- conditions

// Room for the text of a condition.
const CONDITION: usize = 2048;

// The text of a node's condition, in a lent buffer; or what the printer refuses it with.
fn print_condition<'a>(card: &[u8], node: u8, text: &'a mut [u8]) -> Result<&'a [u8], Refusal> {
    let printed = printer::print::print(card, node as usize, text);
    match printed.answer {
        Ok(()) => Ok(text.get(..printed.count as usize).unwrap_or(&[])),
        Err(refusal) => Err(refusal),
    }
}

// That a line is left out: what it would say, its number, and why the printer refuses a condition of it.
fn leave_out(rt: HostRuntime, what: &str, i: usize, refusal: Refusal) -> io::Result<()> {
    let why = match refusal {
        Refusal::Nested => "nests over 32 deep",
        Refusal::Large => "has over 256 nodes",
        _ => "is refused",
    };
    println!(rt; "# {what} {i} is left out: a condition of it {why}")
}

// ---- the lines

// "do " number " if " condition " add" list " del" list
fn write_specification(rt: HostRuntime, card: &Card, i: usize) -> io::Result<()>
    requires { i < card.now.layout.specifications.count }
{
    let e = card.specification(i);
    let mut text = [0u8; CONDITION];
    let condition = match print_condition(card.bytes, e.node, &mut text) {
        Ok(condition) => condition,
        Err(refusal) => return leave_out(rt, "specification", i, refusal),
    };
    print!(rt; "do {} if ", e.action)?;
    rt.write_all(condition)?;
    println!(rt; " add{} del{}", Atoms(e.add), Atoms(e.del))
}

// "select if " condition " goal " condition " plan" list
fn write_selection(rt: HostRuntime, card: &Card, i: usize) -> io::Result<()>
    requires { i < card.now.layout.selections.count }
{
    let e = card.selection(i);
    let mut text = [0u8; CONDITION];
    let belief = match print_condition(card.bytes, e.belief, &mut text) {
        Ok(condition) => condition,
        Err(refusal) => return leave_out(rt, "selection", i, refusal),
    };
    let mut text = [0u8; CONDITION];
    let goal = match print_condition(card.bytes, e.goal, &mut text) {
        Ok(condition) => condition,
        Err(refusal) => return leave_out(rt, "selection", i, refusal),
    };
    print!(rt; "select if ")?;
    rt.write_all(belief)?;
    print!(rt; " goal ")?;
    rt.write_all(goal)?;
    println!(rt; " plan{}", actions_of(card, e.plan))
}

// "revise" list " if " condition " to" list
fn write_revision(rt: HostRuntime, card: &Card, i: usize) -> io::Result<()>
    requires { i < card.now.layout.revisions.count }
{
    let e = card.revision(i);
    let mut text = [0u8; CONDITION];
    let condition = match print_condition(card.bytes, e.node, &mut text) {
        Ok(condition) => condition,
        Err(refusal) => return leave_out(rt, "revision", i, refusal),
    };
    print!(rt; "revise{} if ", actions_of(card, e.head))?;
    rt.write_all(condition)?;
    println!(rt; " to{}", actions_of(card, e.body))
}

// "begin beliefs" list " goals" list " plan" list
fn write_start(rt: HostRuntime, card: &Card) -> io::Result<()>
    requires { TwoByteSpan card.now.layout.initial }
{
    let beliefs = Atoms(card.initial_beliefs());
    let goals = Atoms(card.initial_goals());
    let plan = actions_of(card, card.layout.initial);
    println!(rt; "begin beliefs{beliefs} goals{goals} plan{plan}")
}

// A card's lines, in the order of the grammar.
fn write_lines(rt: HostRuntime, card: &Card) -> io::Result<()>
    requires { TwoByteSpan card.now.layout.initial }
{
    println!(rt; "atoms {}", card.layout.atoms)?;
    for action in 0..card.layout.actions as usize {
        println!(rt; "action {}", card.weight(action))?;
    }
    for i in 0..card.layout.specifications.count as usize {
        write_specification(rt, card, i)?;
    }
    for i in 0..card.layout.selections.count as usize {
        write_selection(rt, card, i)?;
    }
    for i in 0..card.layout.revisions.count as usize {
        write_revision(rt, card, i)?;
    }
    write_start(rt, card)
}

// The card as a text, or its refusal.
fn show(rt: HostRuntime, card: &[u8]) -> io::Result<()> {
    match accept(card) {
        Ok(card) => write_lines(rt, &card),
        Err(refusal) => println!(rt; "refused {}", refusal_number(refusal)),
    }
}

fn main(rt: HostRuntime) -> io::Result<()> {
    let mut buffer = [0u8; 32353];
    let n = read_full(&mut rt.stdin(), &mut buffer)?;
    show(rt, &buffer[..n])
}
