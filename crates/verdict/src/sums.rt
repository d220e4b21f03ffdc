// What the plans of an accepted card weigh, by running sums over its pool.
ghost use Rattle.std.specs.Prelude.{◌≡◌, ◌+◌, ◌*◌, ◌≤◌, length, replicate};
ghost use Rattle.runs.specs.Weight.{weigh};
ghost use Rattle.meaning.specs.Card.{number_at, weight, part};
ghost use Rattle.verdict.specs.Summed.{Weighable, Summed};

use layout::bytes::number_at;
use meaning::{Section, Span};

// The weight of an action, where the weights begin at a place.
fn weight_of(card: &[u8], weights: usize, action: u8) -> usize
    requires { (weights + 2 * action + 2 ≤ length card.now) × (weights ≤ 65535) }
    ensures { result ≡ number_at card.now (weights + 2 * action) }
{
    number_at(card, weights + 2 * (action as usize))
}

// The weight of n actions from a place on: at most 8,192 actions of at most 1,024 each.
fn part_weight(card: &[u8], weights: usize, at: usize, n: usize) -> usize
    requires { Weighable card.now weights at n }
    ensures { result ≡ weigh (weight card.now) (part card.now at n) }
{
    let mut total: usize = 0;
    for i in 0..n {
        total += weight_of(card, weights, card[at + i]);
    }
    total
}

// The running sums, where there is none yet, in one pass over the pool: what its first 32 actions weigh, its first 64, and so on.
pub fn sum(card: &[u8], weights: usize, pool: Section, sums: &mut [u32; 257])
    requires { Weighable card.now weights pool.offset pool.count × (sums.old ≡ replicate 257 0) }
    ensures { Summed pool card.now sums.new }
{
    let mut total: usize = 0;
    for k in 0..pool.count as usize / 32 {
        total += part_weight(card, weights, (pool.offset as usize) + 32 * k, 32);
        sums[k + 1] = total as u32;
    }
}

// The weight of the pool's first n actions, by running sum k: with the actions behind it, or without those up to it.
fn from_sum(
    card: &[u8],
    weights: usize,
    pool: Section,
    sums: &[u32; 257],
    n: usize,
    k: usize,
) -> usize
    requires weighable { Weighable card.now weights pool.offset pool.count × Summed pool card.now sums.now }
    requires within { (n ≤ pool.count) × (32 * k ≤ pool.count) }
    ensures { result ≡ weigh (weight card.now) (part card.now pool.offset n) }
{
    let at = pool.offset as usize;
    if n < 32 * k {
        (sums[k] as usize) - part_weight(card, weights, at + n, 32 * k - n)
    } else {
        (sums[k] as usize) + part_weight(card, weights, at + 32 * k, n - 32 * k)
    }
}

// The same, by the nearest running sum: at most 16 actions more or less, but for the pool's last 31.
fn first_weight(card: &[u8], weights: usize, pool: Section, sums: &[u32; 257], n: usize) -> usize
    requires { Weighable card.now weights pool.offset pool.count × Summed pool card.now sums.now × (n ≤ pool.count) }
    ensures { result ≡ weigh (weight card.now) (part card.now pool.offset n) }
{
    let nearest = (n + 16) / 32;
    if 32 * nearest <= pool.count as usize {
        from_sum(card, weights, pool, sums, n, nearest)
    } else {
        from_sum(card, weights, pool, sums, n, n / 32)
    }
}

// The weight of a plan in the pool: of a short one its actions' added up, and of another what the actions up to its end weigh,
// without those before its start.
pub fn plan_weight(card: &[u8], weights: usize, pool: Section, sums: &[u32; 257], s: Span) -> usize
    requires weighable { Weighable card.now weights pool.offset pool.count × Summed pool card.now sums.now }
    requires length_bound { s.start + s.length ≤ pool.count }
    ensures { result ≡ weigh (weight card.now) (part card.now (pool.offset + s.start) s.length) }
{
    let start = s.start as usize;
    let n = s.length as usize;
    if n <= 32 {
        return part_weight(card, weights, (pool.offset as usize) + start, n);
    }
    first_weight(card, weights, pool, sums, start + n)
        - first_weight(card, weights, pool, sums, start)
}
