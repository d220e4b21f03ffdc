// The parts of a place: read from its bytes, and written to a lent buffer.
ghost use Rattle.std.specs.Prelude.{◌≡◌, ◌++◌, ◌+◌, ◌≤◌, length, drop};
ghost use Rattle.std.proofs.Math.Seq.{paste};
ghost use Rattle.meaning.specs.Sizes.{set_bytes, place_goals_at, plan_at};
ghost use Rattle.meaning.specs.Configurations.{state_of};
ghost use Rattle.meaning.specs.Place.{place_header, place};
ghost use Rattle.layout.specs.PlaceParts.{place_parts, configured};

use crate::bytes::{copy, number_at, set_at};
use crate::sizes::{place_goals_at, plan_at, set_bytes};
use meaning::{Layout, Plan, Set, Standing};

// "plan length L at 4; plan offset 44 at 6; phase at 8"; the finished count "in bytes 10 and 11"; "beliefs at 12; goals at 28".
#[derive(Clone, Copy)]
pub struct PlaceParts {
    pub length: usize,
    pub offset: usize,
    pub phase: usize,
    pub finished: usize,
    pub beliefs: Set,
    pub goals: Set,
}

// "Exactly 44 + L bytes."
pub fn place_size(l: Layout, length: usize) -> usize
    requires { length ≤ 65535 }
    ensures { result ≡ plan_at (set_bytes l) + length }
{
    plan_at(l) + length
}

// All of a place but its mark and its plan.
pub fn read_parts(l: Layout, p: &[u8]) -> PlaceParts
    requires { plan_at (set_bytes l) ≤ length p.now }
    ensures { (result ≡ place_parts l p.now) × (result.length ≤ 65535) × (result.finished ≤ 65535) }
{
    PlaceParts {
        length: number_at(p, 4),
        offset: number_at(p, 6),
        phase: number_at(p, 8),
        finished: number_at(p, 10),
        beliefs: set_at(p, 12, l.edition),
        goals: set_at(p, place_goals_at(l), l.edition),
    }
}

// "Bytes 33 50 hex; edition 1 at 2" or what its card has; "plan length L at 4; plan offset 44 at 6; phase at 8", and the finished
// count "in bytes 10 and 11".
fn header_of(l: Layout, m: Standing) -> [u8; 12]
    ensures { result ≡ place_header l m.length m.phase m.finished }
{
    let edition = l.edition.to_le_bytes();
    let length = m.length.to_le_bytes();
    let offset = (plan_at(l) as u16).to_le_bytes();
    let phase = (m.phase as u16).to_le_bytes();
    let finished = m.finished.to_le_bytes();
    [
        0x33,
        0x50,
        edition[0],
        edition[1],
        length[0],
        length[1],
        offset[0],
        offset[1],
        phase[0],
        phase[1],
        finished[0],
        finished[1],
    ]
}

// "beliefs at 12; goals at 28"
fn write_sets(l: Layout, beliefs: &Set, goals: &Set, out: &mut [u8])
    requires { plan_at (set_bytes l) ≤ length out.old }
    ensures { out.new
        ≡ paste (paste out.old 12 beliefs.now (set_bytes l)) (place_goals_at (set_bytes l)) goals.now (set_bytes l) }
{
    let s = set_bytes(l);
    copy(out, 12, beliefs, 0, s);
    copy(out, place_goals_at(l), goals, 0, s);
}

// The whole place, where there is room: the header, the sets, and "the plan's L bytes at 44".
pub fn write_place(l: Layout, beliefs: &Set, goals: &Set, m: Standing, plan: &Plan, out: &mut [u8])
    requires { (m.length ≤ 1024) × (plan_at (set_bytes l) + m.length ≤ length out.old) }
    ensures { out.new
        ≡ place l (state_of (configured beliefs.now goals.now m plan.now))
        ++ drop (plan_at (set_bytes l) + m.length) out.old }
{
    copy(out, 0, &header_of(l, m), 0, 12);
    write_sets(l, beliefs, goals, out);
    copy(out, plan_at(l), plan, 0, m.length as usize);
}
