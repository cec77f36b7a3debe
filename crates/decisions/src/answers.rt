// What deciding answers.
ghost use Rattle.std.specs.Prelude.{◌≡◌};
ghost use Rattle.decisions.specs.Decisions.{answer_number};

// The first two are grants; specs/Decisions.antt gives the numbers.
#[derive(Clone, Copy, PartialEq, Eq)]
pub enum Answer {
    Open,
    ByRole,
    Closed,
    LoginWanted,
    RoleLacking,
}

// The number of an answer.
impl From<Answer> for u32 {
    ghost from_gives = { λ a n. n ≡ answer_number a };

    fn from(a: Answer) -> u32 {
        match a {
            Answer::Open => 1,
            Answer::ByRole => 2,
            Answer::Closed => 3,
            Answer::LoginWanted => 4,
            Answer::RoleLacking => 5,
        }
    }
}
