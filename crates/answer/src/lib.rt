// What a call answers: the refusals of document 01's table and those of document 02, one case for each number, and the answer's two numbers.
#![tactic(auto)]

ghost use Rattle.std.specs.Prelude.{◌≡◌};
ghost use Rattle.answer.specs.Refusals.{refusal_number};
ghost use Rattle.answer.specs.Outcomes.{answer_of};

// Why nothing is given, with the table's number of each.
#[derive(Clone, Copy, PartialEq, Eq)]
pub enum Refusal {
    TooLarge = 1,
    Malformed = 2,
    BadNumber = 3,
    Image = 4,
    NoRegion = 5,
    Unrepresentable = 6,
    BadFrequency = 7,
    NoPrimitive = 8,
    ShortOutput = 9,
    OutsideGrammar = 10,
    OutsideLimits = 11,
}

impl From<Refusal> for u32 {
    ghost from_gives = { λ refusal number. number ≡ refusal_number refusal };

    fn from(refusal: Refusal) -> u32 {
        refusal as u32
    }
}

// 0 and the length of what was written, or a refusal's number and 0. Two numbers, and no Result: it is what C gets by value. Inside the library it is `Result<usize, Refusal>`.
#[repr(C)]
#[derive(Clone, Copy)]
pub struct Answer {
    pub number: u32,
    pub length: usize,
}

// What a call made: the length of what it wrote, or why it wrote nothing.
impl From<Result<usize, Refusal>> for Answer {
    ghost from_gives = { λ made answer. answer ≡ answer_of made };

    fn from(made: Result<usize, Refusal>) -> Answer {
        match made {
            Ok(length) => Answer { number: 0, length },
            Err(refusal) => Answer {
                number: u32::from(refusal),
                length: 0,
            },
        }
    }
}
