// The limits, each by a name of its own: three are 1,024. They are functions and no constants, as the proofs of their callers in
// card, verdict, place and moves cite their clauses.
ghost use Rattle.std.specs.Prelude.{◌≡◌};
ghost use Rattle.runs.specs.Limits.{longest_plan, heaviest_action, heaviest_plan, most_finished};

// "a plan (0 to 1,024 action numbers)"
pub fn longest_plan() -> usize
    ensures { result ≡ longest_plan }
{
    1024
}

// "Each action weighs 1 to 1,024."
pub fn heaviest_action() -> usize
    ensures { result ≡ heaviest_action }
{
    1024
}

// "its starting plans weigh at most 1,024"
pub fn heaviest_plan() -> usize
    ensures { result ≡ heaviest_plan }
{
    1024
}

// "stopping at 65,535"
pub fn most_finished() -> u16
    ensures { result ≡ most_finished }
{
    65535
}
