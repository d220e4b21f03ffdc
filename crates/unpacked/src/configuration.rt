// A configuration whose sets are truth values.
ghost use Rattle.std.specs.Prelude.{◌≡◌};
ghost use Rattle.unpacked.specs.Truths.{configuration_from};

use crate::truths::{Truths, pack_set, unpack_set};
use meaning::{Configuration, Mind, Plan, Standing};

// "a set of believed atoms, a set of goal atoms, a plan (0 to 1,024 action numbers) and a phase 0, 1 or 2", unpacked.
#[derive(Clone, Copy)]
pub struct Unpacked {
    pub beliefs: Truths,
    pub goals: Truths,
    pub plan: Plan,
    pub standing: Standing,
}

// A configuration that is handed in.
pub fn unpack(c: Configuration) -> Unpacked
    ensures { configuration_from result ≡ c }
{
    let Configuration { mind, plan } = c;
    let Mind {
        beliefs,
        goals,
        length,
        phase,
        finished,
    } = mind;
    Unpacked {
        beliefs: unpack_set(beliefs),
        goals: unpack_set(goals),
        plan,
        standing: Standing {
            length,
            phase,
            finished,
        },
    }
}

// The one that is handed out.
pub fn pack(u: Unpacked) -> Configuration
    ensures { result ≡ configuration_from u }
{
    let Unpacked {
        beliefs,
        goals,
        plan,
        standing,
    } = u;
    Configuration {
        mind: Mind {
            beliefs: pack_set(beliefs),
            goals: pack_set(goals),
            length: standing.length,
            phase: standing.phase,
            finished: standing.finished,
        },
        plan,
    }
}
