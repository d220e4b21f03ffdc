// The drill: requests on standard input, an answer for each on standard output, so that any other program can be compared with the
// sixteen calls and the plain engine's four byte for byte. Numbers of two or four bytes are low byte first. "A request that breaks
// these rules, or is not there yet, ends the program."
#![tactic(auto)]

ghost use Rattle.std.specs.Prelude.{◌≤◌};
ghost use Rattle.demands.specs.CallContracts.{Loads, Lists, Takes, Runs};

use answers::{
    answer_carried, answer_number, bounded_answer_carried, bounded_answer_number,
    bounded_ending_number, coming_choice, coming_number, deliberation_ending_number, ending_number,
    refusal_number, sheet_number, verdict_number, verdict_offender, verdict_rule,
};
use deliberation::Deliberated;
use input::read_full;
use layout::bytes::{number_at, set_at, two_bytes_at};
use meaning::{BoundedRan, BoundedReply, Configuration, Listed, Mind, Plan, Ran, Reply};
use std::io;

// Why the program ends, the error that `?` hands on: its input has ended, or has a request that breaks the rules; or a read or a
// write failed.
#[derive(Drop)]
enum End {
    Input,
    Failed(io::Error),
}

impl From<io::Error> for End {
    fn from(e: io::Error) -> Self {
        End::Failed(e)
    }
}

type Result<T> = std::result::Result<T, End>;

// ---- what a request is made of

// Every byte of a slice.
fn fill(rt: HostRuntime, bytes: &mut [u8]) -> Result<()> {
    if read_full(&mut rt.stdin(), bytes)? < bytes.len() {
        return Err(End::Input);
    }
    Ok(())
}

// The next bytes of the input.
fn next_bytes<const N: usize>(rt: HostRuntime) -> Result<[u8; N]> {
    let mut bytes = [0u8; N];
    fill(rt, &mut bytes)?;
    Ok(bytes)
}

// The next number of two bytes.
fn next_number(rt: HostRuntime) -> Result<u16> {
    Ok(u16::from_le_bytes(next_bytes(rt)?))
}

// The first n of what a buffer holds, which is the most that a request may ask for.
fn lent<T>(buffer: &mut [T], n: usize) -> Result<&mut [T]> {
    buffer.get_mut(..n).ok_or(End::Input)
}

// "room (2, at most …)", of a buffer that is lent.
fn next_room<T>(rt: HostRuntime, buffer: &mut [T]) -> Result<&mut [T]> {
    let n = next_number(rt)?;
    lent(buffer, n as usize)
}

// "length n (2, at most …), n bytes", in a buffer that holds the most.
fn next_part(rt: HostRuntime, buffer: &mut [u8]) -> Result<&mut [u8]> {
    let part = next_room(rt, buffer)?;
    fill(rt, part)?;
    Ok(part)
}

// "An image of a configuration: beliefs, goals (16 bytes each; from 9 on 32), plan length (2), phase (1), from 4 on the finished
// count (2), m (2, at most 1,024), and the first m bytes of the plan's array; the rest of the array is zero."
fn next_image(rt: HostRuntime) -> Result<Configuration> {
    let head = next_bytes::<71>(rt)?;
    let mut plan = [0u8; 1024];
    fill(rt, lent(&mut plan, number_at(&head, 69))?)?;
    let beliefs = set_at(&head, 0, 2);
    let goals = set_at(&head, 32, 2);
    Ok(Configuration {
        mind: Mind {
            beliefs,
            goals,
            length: two_bytes_at(&head, 64),
            phase: head[66],
            finished: two_bytes_at(&head, 67),
        },
        plan,
    })
}

// ---- what an answer is made of

// Bytes are told.
fn tell_bytes(rt: HostRuntime, bytes: &[u8]) -> Result<()> {
    Ok(rt.write_all(bytes)?)
}

// A number is told, in two bytes.
fn tell(rt: HostRuntime, n: u16) -> Result<()> {
    tell_bytes(rt, &n.to_le_bytes())
}

// What an answer carries is told, in two bytes or in four.
fn tell_carried(rt: HostRuntime, carried: usize, bytes: usize) -> Result<()>
    requires { bytes ≤ 8 }
{
    tell_bytes(rt, &carried.to_le_bytes()[..bytes])
}

// "In an answer m is the least that serves": how many bytes there are up to the last that is not zero.
fn least(plan: &Plan) -> usize
    ensures { result ≤ 1024 }
{
    match plan.iter().rposition(|action| *action != 0) {
        Some(last) => last + 1,
        None => 0,
    }
}

// An image is told.
fn tell_image(rt: HostRuntime, c: Configuration) -> Result<()> {
    let m = least(&c.plan);
    let length = c.mind.length.to_le_bytes();
    let finished = c.mind.finished.to_le_bytes();
    let least = (m as u16).to_le_bytes();
    tell_bytes(rt, &c.mind.beliefs)?;
    tell_bytes(rt, &c.mind.goals)?;
    tell_bytes(
        rt,
        &[
            length[0],
            length[1],
            c.mind.phase,
            finished[0],
            finished[1],
            least[0],
            least[1],
        ],
    )?;
    tell_bytes(rt, &c.plan[..m])
}

// ---- the calls

// Request 1.
fn check(rt: HostRuntime, card: &[u8]) -> Result<()> {
    match guide::check(card) {
        Ok(_) => tell(rt, 0),
        Err(refusal) => tell(rt, refusal_number(refusal)),
    }
}

// Which of the two engines is asked: requests 2, 4, 5 and 6, or 15 to 18.
#[derive(Clone, Copy)]
enum Engine {
    First,
    Plain,
}

// A call of either engine: one contract, whichever is asked.
fn loaded(card: &[u8], engine: Engine) -> Reply
    ensures { Loads card.now result }
{
    match engine {
        Engine::First => guide::load(card),
        Engine::Plain => plain::load::load(card),
    }
}

// The same.
fn listed(card: &[u8], engine: Engine, c: Configuration, out: &mut [u16]) -> Listed
    ensures { Lists card.now c out.old result out.new }
{
    match engine {
        Engine::First => guide::list(card, c, out),
        Engine::Plain => plain::list::list(card, c, out),
    }
}

// The same.
fn taken(card: &[u8], engine: Engine, c: Configuration, choice: u16) -> Reply
    ensures { Takes card.now c choice result }
{
    match engine {
        Engine::First => guide::take(card, c, choice),
        Engine::Plain => plain::take::take(card, c, choice),
    }
}

// The same.
fn ran(card: &[u8], engine: Engine, c: Configuration, budget: u16) -> Ran
    ensures { Runs card.now c budget result }
{
    match engine {
        Engine::First => guide::run(card, c, budget),
        Engine::Plain => plain::run::run(card, c, budget),
    }
}

// Requests 2, 15 and 8, once the call is made.
fn tell_reply(rt: HostRuntime, r: Reply) -> Result<()> {
    tell(rt, answer_number(r.answer))?;
    tell_image(rt, r.configuration)
}

// Request 3: "verdict (1: 0 bounded, 1 open), offender (1: 0 none, 1 initial plan, 2 selection, 3 revision), its number (2)".
// "What a refusal leaves open … (an ending, a verdict) is written as 0 here"
fn grade(rt: HostRuntime, card: &[u8]) -> Result<()> {
    let r = guide::grade(card);
    let rule = verdict_rule(r.verdict);
    tell(rt, answer_number(r.answer))?;
    let Ok(()) = r.answer else {
        return tell_bytes(rt, &[0; 4]);
    };
    let verdict = verdict_number(r.verdict);
    let offender = verdict_offender(r.verdict);
    let rule = rule.to_le_bytes();
    tell_bytes(rt, &[verdict, offender, rule[0], rule[1]])
}

// Requests 4 and 16: "It is lent filled with EEEE hex; room is at most 1,024"
fn list<F: Fn(Configuration, &mut [u16]) -> Listed + Drop>(rt: HostRuntime, call: F) -> Result<()>
    requires { F.IsAlwaysCallable call }
{
    let c = next_image(rt)?;
    let mut list = [0xEEEEu16; 1024];
    let out = next_room(rt, &mut list)?;
    let r = call(c, out);
    tell(rt, answer_number(r.answer))?;
    tell(rt, r.count)?;
    tell(rt, r.judged)?;
    tell(rt, r.goals)?;
    let mut entries = [[0u8; 2]; 1024];
    for (two, entry) in entries.iter_mut().zip(out.iter()) {
        *two = entry.to_le_bytes();
    }
    tell_bytes(rt, lent(&mut entries, out.len())?.as_flattened())
}

// What a chosen move answers, on any card or on a bounded one: its number, the node that it carries, and the image.
#[derive(Drop)]
struct Moved {
    number: u16,
    node: usize,
    configuration: Configuration,
}

impl From<Reply> for Moved {
    fn from(r: Reply) -> Self {
        Moved {
            number: answer_number(r.answer),
            node: answer_carried(r.answer),
            configuration: r.configuration,
        }
    }
}

impl From<BoundedReply> for Moved {
    fn from(r: BoundedReply) -> Self {
        Moved {
            number: bounded_answer_number(r.answer),
            node: bounded_answer_carried(r.answer),
            configuration: r.configuration,
        }
    }
}

// Requests 5, 13 and 17: "number (2), … the node (2: with 16 the one that settled it, else 0), image"
fn take<F: Fn(Configuration, u16) -> Moved + Drop>(rt: HostRuntime, call: F) -> Result<()>
    requires { F.IsAlwaysCallable call }
{
    let c = next_image(rt)?;
    let choice = next_number(rt)?;
    let r = call(c, choice);
    tell(rt, r.number)?;
    tell_carried(rt, r.node, 2)?;
    tell_image(rt, r.configuration)
}

// What a run answers, on any card or on a bounded one: its number, the image, the count, and the ending's number.
#[derive(Drop)]
struct Reached {
    number: u16,
    configuration: Configuration,
    count: u16,
    ending: u8,
}

impl From<Ran> for Reached {
    fn from(r: Ran) -> Self {
        Reached {
            number: answer_number(r.answer),
            configuration: r.configuration,
            count: r.count,
            ending: ending_number(r.ending),
        }
    }
}

impl From<BoundedRan> for Reached {
    fn from(r: BoundedRan) -> Self {
        Reached {
            number: bounded_answer_number(r.answer),
            configuration: r.configuration,
            count: r.count,
            ending: bounded_ending_number(r.ending),
        }
    }
}

// The same of a deliberation.
impl From<Deliberated> for Reached {
    fn from(r: Deliberated) -> Self {
        Reached {
            number: answer_number(r.answer),
            configuration: r.configuration,
            count: r.count,
            ending: deliberation_ending_number(r.ending),
        }
    }
}

// "image, count (2), ending (1: 0 spent, 1 rest, 2 full)"
fn tell_reached(rt: HostRuntime, r: Reached) -> Result<()> {
    tell(rt, r.number)?;
    tell_image(rt, r.configuration)?;
    let count = r.count.to_le_bytes();
    tell_bytes(rt, &[count[0], count[1], r.ending])
}

// Requests 6, 14 and 18.
fn run<F: Fn(Configuration, u16) -> Reached + Drop>(rt: HostRuntime, call: F) -> Result<()>
    requires { F.IsAlwaysCallable call }
{
    let c = next_image(rt)?;
    let budget = next_number(rt)?;
    tell_reached(rt, call(c, budget))
}

// Request 22: "ending (1: 0 a move, 1 rest, 2 full), the code of the guide's own next choice (2; …)". "What a refusal leaves open …
// (an ending, a verdict) is written as 0 here"
fn next(rt: HostRuntime, card: &[u8]) -> Result<()> {
    let c = next_image(rt)?;
    let r = guide::next(card, c);
    tell(rt, answer_number(r.answer))?;
    let Ok(()) = r.answer else {
        return tell_bytes(rt, &[0; 3]);
    };
    let choice = coming_choice(r.coming).to_le_bytes();
    tell_bytes(rt, &[coming_number(r.coming), choice[0], choice[1]])
}

// Request 7: "room bytes, lent filled with EE hex; room is at most 2,048"
fn save(rt: HostRuntime, card: &[u8]) -> Result<()> {
    let c = next_image(rt)?;
    let mut place = [0xEEu8; 2048];
    let out = next_room(rt, &mut place)?;
    let r = guide::save(card, c, out);
    tell(rt, answer_number(r.answer))?;
    tell_bytes(rt, out)
}

// Request 8: "length n (2, at most 4,096), n bytes"
fn restore(rt: HostRuntime, card: &[u8]) -> Result<()> {
    let mut place = [0u8; 4096];
    let place = next_part(rt, &mut place)?;
    tell_reply(rt, guide::restore(card, place))
}

// Request 9: "length n (4, at most 65,536), n bytes of text", "room (2, at most 24,200)". "room bytes, lent filled with EE hex",
// "place (4: with 17 the place of the byte, else 0)"
fn text(rt: HostRuntime) -> Result<()> {
    let n = u32::from_le_bytes(next_bytes(rt)?);
    let mut text = [0u8; 65536];
    let text = lent(&mut text, n as usize)?;
    fill(rt, text)?;
    let mut card = [0xEEu8; 24200];
    let out = next_room(rt, &mut card)?;
    let r = reader::read::read(text, out);
    tell(rt, answer_number(r.answer))?;
    tell_carried(rt, answer_carried(r.answer), 4)?;
    tell(rt, r.count)?;
    tell_bytes(rt, out)
}

// Request 10: "node (2), room (2, at most 2,048)"
fn print(rt: HostRuntime, card: &[u8]) -> Result<()> {
    let node = next_number(rt)?;
    let mut text = [0xEEu8; 2048];
    let out = next_room(rt, &mut text)?;
    let r = printer::print::print(card, node as usize, out);
    tell(rt, answer_number(r.answer))?;
    tell(rt, r.count)?;
    tell_bytes(rt, out)
}

// "count (2), ending (1: 0 spent, 1 finished, 2 stuck, 3 full), m (2), the remaining program: m numbers of one byte"
fn tell_deliberated(rt: HostRuntime, r: Deliberated) -> Result<()> {
    let m = r.remaining.length;
    tell_reached(rt, Reached::from(r))?;
    tell(rt, m as u16)?;
    tell_bytes(rt, r.remaining.numbers.get(..m as usize).unwrap_or(&[]))
}

// Request 11: "length n (2, at most 1,024), n bytes of program, image, budget (2)"
fn deliberate(rt: HostRuntime, card: &[u8]) -> Result<()> {
    let mut program = [0u8; 1024];
    let program = next_part(rt, &mut program)?;
    let c = next_image(rt)?;
    let budget = next_number(rt)?;
    tell_deliberated(rt, guide::deliberate(card, program, c, budget))
}

// Request 21: "length n (2, at most 1,024), n bytes of program, m (2, at most 512), m numbers of one byte that remain, the next
// first, image, budget (2)"
fn go_on(rt: HostRuntime, card: &[u8]) -> Result<()> {
    let mut program = [0u8; 1024];
    let program = next_part(rt, &mut program)?;
    let mut given = [0u8; 512];
    let given = next_part(rt, &mut given)?;
    let c = next_image(rt)?;
    let budget = next_number(rt)?;
    tell_deliberated(rt, guide::go_on(card, program, given, c, budget))
}

// "sheet (1: 0 the master's, 1 the shed's: the one that the part lies in, or, with 20, the one that is refused), start (2), length
// (2) of the part"
fn tell_name(rt: HostRuntime, card: &[u8], shed: &[u8], master: &[u8], action: u16) -> Result<()> {
    let n = guide::named(card, shed, master, action);
    let sheet = sheet_number(n.answer, n.sheet.number());
    tell(rt, answer_number(n.answer))?;
    tell_bytes(rt, &[sheet])?;
    tell(rt, n.part.start)?;
    tell(rt, n.part.length)
}

// Request 12: "the shed's sheet: n (2), n bytes; the master sheet: n (2), n bytes; action (2)"
fn name(rt: HostRuntime, card: &[u8]) -> Result<()> {
    let mut shed = [0u8; 65535];
    let shed = next_part(rt, &mut shed)?;
    let mut master = [0u8; 65535];
    let master = next_part(rt, &mut master)?;
    let action = next_number(rt)?;
    tell_name(rt, card, shed, master, action)
}

// ---- the requests

// The calls by their number: the guide's, and of 15 to 18 the plain engine's.
fn answer(rt: HostRuntime, card: &[u8], request: u8) -> Result<()> {
    let engine = if request < 15 {
        Engine::First
    } else {
        Engine::Plain
    };
    match request {
        1 => check(rt, card),
        2 | 15 => tell_reply(rt, loaded(card, engine)),
        3 => grade(rt, card),
        4 | 16 => list(rt, |c, out| listed(card, engine, c, out)),
        5 | 17 => take(rt, |c, choice| Moved::from(taken(card, engine, c, choice))),
        6 | 18 => run(rt, |c, budget| Reached::from(ran(card, engine, c, budget))),
        7 => save(rt, card),
        8 => restore(rt, card),
        9 => text(rt),
        10 => print(rt, card),
        11 => deliberate(rt, card),
        12 => name(rt, card),
        13 => take(
            rt,
            |c, choice| Moved::from(guide::take_bounded(card, c, choice)),
        ),
        14 => run(
            rt,
            |c, budget| Reached::from(guide::run_bounded(card, c, budget)),
        ),
        21 => go_on(rt, card),
        22 => next(rt, card),
        _ => Err(End::Input),
    }
}

// One request, with a card of n bytes; how many the card has after it. Request 0: "it is the card of the requests that follow".
fn turn(rt: HostRuntime, card: &mut [u8], n: usize) -> Result<usize> {
    let [request] = next_bytes::<1>(rt)?;
    if request == 0 {
        return Ok(next_part(rt, card)?.len());
    }
    answer(rt, lent(card, n)?, request)?;
    Ok(n)
}

// The requests, one after another.
fn turns(rt: HostRuntime) -> Result<()> {
    let mut card = [0u8; 65535];
    // "at first the card of no bytes"
    let mut n = 0;
    for _ in 0..u64::MAX {
        n = turn(rt, &mut card, n)?;
    }
    Ok(())
}

fn main(rt: HostRuntime) -> io::Result<()> {
    match turns(rt) {
        Err(End::Failed(e)) => Err(e),
        _ => Ok(()),
    }
}
