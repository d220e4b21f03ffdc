// Reads a text card on standard input and writes the card that it stands for on standard output; of a refused text one line,
// `refused` and the number, and with 17 the place. Standard error then has the bytes that could have stood there, by their numbers.
#![tactic(auto)]

ghost use Rattle.std.specs.Prelude.{◌<◌, length};

use answers::answer_number;
use input::read_full;
use meaning::{Answer, Refusal};
use std::io;

// The size of the largest card.
const LARGEST: usize = 24128;

// ---- a refused text

// The place that a text is refused with 17 at.
fn slip_of(answer: Answer) -> Option<usize> {
    match answer {
        Err(Refusal::Text(place)) => Some(place),
        _ => None,
    }
}

// The number of a refusal, and the place with 17.
fn refused(rt: HostRuntime, answer: Answer) -> io::Result<()> {
    let number = answer_number(answer);
    match slip_of(answer) {
        Some(place) => println!(rt; "refused {number} {place}"),
        None => println!(rt; "refused {number}"),
    }
}

// Whether a text is refused with 17 at a place.
fn slips_at(text: &[u8], place: usize) -> bool {
    let mut card = [0u8; LARGEST];
    let read = reader::read::read(text, &mut card);
    slip_of(read.answer) == Some(place)
}

// The bytes that could have stood at a place of a text, which is read to there: with any other one it slips at that same place.
fn say_what_could_stand(rt: HostRuntime, text: &mut [u8], place: usize) -> io::Result<()>
    requires { place < length text.old }
{
    for byte in 0..=255u8 {
        text[place] = byte;
        if !slips_at(&text[..place + 1], place) {
            eprint!(rt; " {byte}")?;
        }
    }
    eprintln!(rt)
}

// ---- the text

// The card of a text, or its refusal.
fn show(rt: HostRuntime, text: &[u8]) -> io::Result<Answer> {
    let mut card = [0u8; LARGEST];
    let read = reader::read::read(text, &mut card);
    match read.answer {
        Ok(()) => rt.write_all(card.get(..read.count as usize).unwrap_or(&[]))?,
        answer => refused(rt, answer)?,
    }
    Ok(read.answer)
}

fn main(rt: HostRuntime) -> io::Result<()> {
    // Room for a text: 65,536 bytes, and one more, in which a longer text shows.
    let mut text = [0u8; 65537];
    let n = read_full(&mut rt.stdin(), &mut text)?;
    if 65536 < n {
        return rt.eprintln("the text has over 65,536 bytes");
    }
    let answer = show(rt, &text[..n])?;
    match slip_of(answer) {
        Some(place) if place < text.len() => say_what_could_stand(rt, &mut text, place),
        _ => Ok(()),
    }
}
