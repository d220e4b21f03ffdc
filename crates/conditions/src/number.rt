// A number of a text: docs/TEXT.md, "number = digit { digit }", of any length.
ghost use Rattle.std.specs.Prelude.{◌≡◌, ◌+◌, ◌-◌, ◌*◌, ◌≤◌, length, drop};
ghost use Rattle.notation.specs.Scanning.{digit};
ghost use Rattle.notation.specs.Values.{list_goes_on};
ghost use Rattle.conditions.specs.Reads.{capped, ReadsNumber};

// A number's value, 65,536 where it is greater than 65,535, and the place behind it. It is no Option: each field of a card has a
// bound of its own (127, 255, 65,535), which an Option would ask for beside it, and 65,536 is above each.
#[derive(Clone, Copy)]
pub struct Numeral {
    pub value: usize,
    pub next: usize,
}

// Whether a byte is a digit.
pub fn is_digit(x: u8) -> bool
    ensures { result ≡ digit x }
{
    (b'0' <= x) & (x <= b'9')
}

// Whether a space and a digit come: "list = { " " number }" goes on.
pub fn goes_on(text: &[u8], n: usize) -> bool
    requires { n ≤ length text.now }
    ensures { result ≡ list_goes_on (drop n text.now) }
{
    let left = text.len() - n;
    if left < 2 {
        false
    } else {
        (text[n] == b' ') & is_digit(text[n + 1])
    }
}

// A number with one digit more.
fn with_digit(value: usize, x: u8) -> usize
    requires { (value ≤ 65536) × (48 ≤ x) × (x ≤ 57) }
    ensures { result ≡ capped (10 * value + (x - 48)) }
{
    (10 * value + usize::from(x - b'0')).min(65536)
}

// "number = digit { digit }"
pub fn read_number(text: &[u8], at: usize) -> Numeral
    requires { at ≤ length text.now }
    ensures { ReadsNumber text.now at result }
{
    let mut value = 0;
    for next in at..text.len() {
        let x = text[next];
        if !is_digit(x) {
            return Numeral { value, next };
        }
        value = with_digit(value, x);
    }
    Numeral {
        value,
        next: text.len(),
    }
}
