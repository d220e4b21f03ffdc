// A card put together: the header is written, and the sections, which stand where they begin in the largest card, are moved down.
ghost use Rattle.std.specs.Prelude.{◌≡◌, ◌++◌, ◌+◌, ◌≤◌, length, take, drop};
ghost use Rattle.std.proofs.Math.Seq.{paste};
ghost use Rattle.notation.specs.Making.{card_of};
ghost use Rattle.lines.specs.InPlace.{Bounded, sections_in};
ghost use Rattle.reader.specs.Packed.{eight_numbers, header_in};

use layout::bytes::down;
use lines::made::Made;

// A section's n bytes, which stand from b on, moved behind the first e bytes; where they end.
fn pack(card: &mut [u8], e: usize, b: usize, n: usize) -> usize
    requires { (e ≤ b) × (b + n ≤ length card.old) }
    ensures { (result ≡ e + n) × (card.new ≡ paste card.old e (drop b card.old) n) }
{
    down(card, e, b, n);
    e + n
}

// Eight numbers, "two bytes, low byte first". They are written out: to_le_bytes gives eight arrays, which would have to be joined.
fn eight_numbers(
    a: usize,
    b: usize,
    c: usize,
    d: usize,
    e: usize,
    f: usize,
    g: usize,
    h: usize,
) -> [u8; 16]
    ensures { result ≡ eight_numbers a b c d e f g h }
{
    [
        (a % 256) as u8,
        (a / 256 % 256) as u8,
        (b % 256) as u8,
        (b / 256 % 256) as u8,
        (c % 256) as u8,
        (c / 256 % 256) as u8,
        (d % 256) as u8,
        (d / 256 % 256) as u8,
        (e % 256) as u8,
        (e / 256 % 256) as u8,
        (f % 256) as u8,
        (f / 256 % 256) as u8,
        (g % 256) as u8,
        (g / 256 % 256) as u8,
        (h % 256) as u8,
        (h / 256 % 256) as u8,
    ]
}

// The header but for the start's sets, which stand there: "bytes 33 41 hex", edition 1, "counts and offsets".
fn write_header(card: &mut [u8], m: Made)
    requires { Bounded m × (length card.old ≡ 24128) }
    ensures { card.new ≡ header_in m ++ drop 32 card.old }
{
    let nodes = 64 + 2 * m.weights;
    let specifications = nodes + 4 * m.nodes;
    let selections = specifications + 36 * m.specifications;
    let revisions = selections + 8 * m.selections;
    let pool = revisions + 12 * m.revisions;
    let front = eight_numbers(
        0x4133,
        1,
        m.atoms,
        m.weights,
        m.nodes,
        nodes,
        m.specifications,
        specifications,
    );
    let back = eight_numbers(
        m.selections,
        selections,
        m.revisions,
        revisions,
        m.pool,
        pool,
        m.start,
        m.len,
    );
    card[..16].copy_from_slice(&front);
    card[16..32].copy_from_slice(&back);
}

// The whole card, at the front; how many bytes it has.
pub fn assemble(card: &mut [u8], m: Made) -> usize
    requires { Bounded m × (length card.old ≡ 24128) }
    ensures upper_bound { (result ≤ 24128) × (length card.new ≡ 24128) }
    ensures card_after { take result card.new ≡ card_of (sections_in m card.old) }
{
    write_header(card, m);
    let nodes = pack(card, 64 + 2 * m.weights, 576, 4 * m.nodes);
    let specifications = pack(card, nodes, 1600, 36 * m.specifications);
    let selections = pack(card, specifications, 10816, 8 * m.selections);
    let revisions = pack(card, selections, 12864, 12 * m.revisions);
    pack(card, revisions, 15936, m.pool)
}
