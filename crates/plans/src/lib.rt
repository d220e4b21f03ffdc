// Plans, changed in place in their 1,024 bytes: the first len are the actions, and zeros stand after their end.
#![tactic(auto)]

ghost use Rattle.std.specs.Prelude.{◌≡◌, ◌++◌, ◌+◌, ◌-◌, ◌≤◌, length, take, drop, replicate};
ghost use Rattle.paper.specs.Next.{is_prefix};
ghost use Rattle.meaning.specs.Card.{part};
ghost use Rattle.meaning.specs.Configurations.{padded};
ghost use Rattle.meaning.specs.Refusals.{every};
ghost use Rattle.plans.specs.Plans.{Padded, shifted, same};

use meaning::Plan;

// Zeros from `from` to `to`.
pub fn clear(s: &mut [u8], from: usize, to: usize)
    requires { (from ≤ to) × (to ≤ length s.old) }
    ensures { s.new ≡ take from s.old ++ replicate (to - from) 0 ++ drop to s.old }
{
    s[from..to].fill(0);
}

// What stands after the first hlen actions moves to blen, and zeros stand after its end.
fn shift(plan: &mut Plan, len: usize, hlen: usize, blen: usize)
    requires { (hlen ≤ len) × (len ≤ 1024) × (blen + (len - hlen) ≤ 1024) × Padded plan.old len }
    ensures { plan.new ≡ shifted plan.old len hlen blen }
{
    let tail = len - hlen;
    plan.copy_within(hlen..len, blen);
    if blen < hlen {
        clear(plan, blen + tail, len);
    }
}

// The first k actions leave.
pub fn drop_front(plan: &mut Plan, len: usize, k: usize)
    requires { (k ≤ len) × (len ≤ 1024) × Padded plan.old len }
    ensures { plan.new ≡ padded (drop k (take len plan.old)) }
{
    shift(plan, len, k, 0);
}

// The body, blen bytes of the card from bstart, takes the place of the first hlen actions.
pub fn replace_front(
    plan: &mut Plan,
    len: usize,
    hlen: usize,
    card: &[u8],
    bstart: usize,
    blen: usize,
)
    requires { (hlen ≤ len) × (len ≤ 1024) × (blen + (len - hlen) ≤ 1024) × (bstart + blen ≤ length card.now) × Padded plan.old len }
    ensures { plan.new ≡ padded (part card.now bstart blen ++ drop hlen (take len plan.old)) }
{
    shift(plan, len, hlen, blen);
    layout::bytes::copy(plan, 0, card, bstart, blen);
}

// n bytes from an offset on become the plan, whatever it was.
pub fn fill(plan: &mut Plan, bytes: &[u8], start: usize, n: usize)
    requires { (n ≤ 1024) × (start + n ≤ length bytes.now) }
    ensures { plan.new ≡ padded (part bytes.now start n) }
{
    layout::bytes::copy(plan, 0, bytes, start, n);
    clear(plan, n, 1024);
}

// Whether n bytes of the card, from `at` on, are those of the plan from `from` on: the bits in which any two differ are gathered
// without an exit.
fn same_bytes(card: &[u8], at: usize, plan: &Plan, from: usize, n: usize) -> bool
    requires { (at + n ≤ length card.now) × (from + n ≤ 1024) }
    ensures { result ≡ every n (same card.now at plan.now from) }
{
    let mut differing: u8 = 0;
    for i in 0..n {
        differing |= card[at + i] ^ plan[from + i];
    }
    differing == 0
}

// Whether the head, hlen bytes of the card from hstart, is a prefix of the plan. The first byte alone settles most heads. A long
// head is compared by 64 bytes at a time; the last 64 may lie over those before.
pub fn starts_with(card: &[u8], hstart: usize, hlen: usize, plan: &Plan, len: usize) -> bool
    requires { (1 ≤ hlen) × (hstart + hlen ≤ length card.now) × (len ≤ 1024) }
    ensures { result ≡ is_prefix (part card.now hstart hlen) (take len plan.now) }
{
    if len < hlen {
        return false;
    }
    if card[hstart] != plan[0] {
        return false;
    }
    if hlen < 64 {
        return same_bytes(card, hstart, plan, 0, hlen);
    }
    let last = hlen - 64;
    for i in (0..last).step_by(64) {
        if !same_bytes(card, hstart + i, plan, i, 64) {
            return false;
        }
    }
    same_bytes(card, hstart + last, plan, last, 64)
}
