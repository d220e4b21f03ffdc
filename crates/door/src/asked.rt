// What asking for a choice answers, and a choice as it is told.
ghost use Rattle.std.specs.Prelude.{◌≡◌, ◌%◌, ◌<◌};
ghost use Rattle.runs.specs.Kinds.{kind_number};
ghost use Rattle.runs.specs.Order.{code};
ghost use Rattle.meaning.specs.Calls.{choice};
ghost use Rattle.door.specs.Asking.{choice_of, chosen};

use runs::Kind;

// What asking for a choice answers. 02, Wish 1: "Say why a move is closed."
#[derive(Clone, Copy)]
pub enum Asked {
    // 01, "A configuration and its transitions": "Enabled if …"
    Enabled,
    // 02, Wish 1: "no such rule or specification"
    NoRule,
    // 02, Wish 1: "the plan's front doesn't fit (empty, not empty, other first action, other head)"
    Front,
    // 02, Wish 1: "a condition is false, with the node": the one that settled it
    Condition(u8),
}

// A choice: its kind, and "the number of the rule or specification, from 0".
#[derive(Clone, Copy)]
pub struct Choice {
    pub kind: Kind,
    pub number: usize,
}

// "the kind (0 selection, 1 action, 2 revision)": its number.
pub fn number_of(kind: Kind) -> u8
    ensures { (result ≡ kind_number kind) × (result < 3) }
{
    kind as u8
}

// The kind of a number, modulo 3.
pub fn kind_of(number: u8) -> Kind
    ensures { kind_number result ≡ number % 3 }
{
    match number % 3 {
        0 => Kind::Selection,
        1 => Kind::Action,
        _ => Kind::Revision,
    }
}

impl Choice {
    // "A choice is coded as 256 times the kind … plus the number of the rule or specification, from 0."
    pub fn code(self) -> u16
        requires { self.number < 256 }
        ensures { result ≡ code (choice_of self) }
    {
        256 * (number_of(self.kind) as u16) + (self.number as u16)
    }

    // The choice of a code. There is no kind past 2.
    pub fn of_code(code: u16) -> Option<Choice>
        ensures { result ≡ chosen (choice code) }
    {
        let kind = match code / 256 {
            0 => Kind::Selection,
            1 => Kind::Action,
            2 => Kind::Revision,
            _ => return None,
        };
        Some(Choice {
            kind,
            number: (code % 256) as usize,
        })
    }
}
