// Reads on standard input a card, the shed's sheet of move names and the master's, each after its length in two bytes, low byte
// first, and writes a line for each specification of the card: its number, and the name of its action. A control byte in a name is
// written as `?`, so that a line stays a line. A refusal prints only `refused` and its number, with 20 also which sheet it was.
#![tactic(auto)]

use answers::answer_number;
use card::check::accept;
use input::read_full;
use layout::card::Card;
use meaning::{Answer, Refusal};
use names::name::{name, named};
use std::io;

// ---- the lines

// A name, each control byte of it as `?`.
fn write_name(rt: HostRuntime, bytes: &[u8]) -> io::Result<()> {
    for (i, part) in bytes.split(|byte| byte.is_ascii_control()).enumerate() {
        if 0 < i {
            rt.write_all(b"?")?;
        }
        rt.write_all(part)?;
    }
    Ok(())
}

// number " " name, for each specification
fn write_lines(rt: HostRuntime, card: &Card, shed: &[u8], master: &[u8]) -> io::Result<()> {
    for i in 0..card.layout.specifications.count as usize {
        let e = card.specification(i);
        print!(rt; "{i} ")?;
        write_name(rt, name(card.bytes, shed, master, e.action as usize))?;
        println!(rt)?;
    }
    Ok(())
}

// "refused " number, and with 20 which sheet
fn refused(rt: HostRuntime, answer: Answer) -> io::Result<()> {
    let sheet = match answer {
        Err(Refusal::Sheet(0)) => " master",
        Err(Refusal::Sheet(_)) => " shed",
        _ => "",
    };
    println!(rt; "refused {}{sheet}", answer_number(answer))
}

// The names of a card's moves, or the refusal. Whichever action is asked about, the card and both sheets are checked whole; an
// accepted card has an action 0, and a layout.
fn show(rt: HostRuntime, card: &[u8], shed: &[u8], master: &[u8]) -> io::Result<()> {
    let asked = named(card, shed, master, 0);
    let Ok(()) = asked.answer else {
        return refused(rt, asked.answer);
    };
    match accept(card) {
        Ok(card) => write_lines(rt, &card, shed, master),
        Err(_) => Ok(()),
    }
}

// ---- the input

// The first part of an input, which stands after its length, and what follows it.
fn part_of(input: &[u8]) -> Option<(&[u8], &[u8])> {
    let (length, after) = input.split_first_chunk::<2>()?;
    after.split_at_checked(u16::from_le_bytes(*length) as usize)
}

// The card and the two sheets that an input is.
fn parts_of(input: &[u8]) -> Option<(&[u8], &[u8], &[u8])> {
    let (card, after) = part_of(input)?;
    let (shed, after) = part_of(after)?;
    let (master, after) = part_of(after)?;
    if after.is_empty() {
        Some((card, shed, master))
    } else {
        None
    }
}

fn main(rt: HostRuntime) -> io::Result<()> {
    // Room for three parts, each of at most 65,535 bytes after its length, and one byte more, in which a longer input shows.
    let mut input = [0u8; 196612];
    let n = read_full(&mut rt.stdin(), &mut input)?;
    match parts_of(&input[..n]) {
        Some((card, shed, master)) => show(rt, card, shed, master),
        None => rt.eprintln("the input is not a card and two sheets"),
    }
}
