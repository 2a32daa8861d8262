// Running the cases of an input one after the other, and counting them.
ghost use Rattle.std.specs.Prelude.{◌≡◌, ◌+◌, ◌-◌, ◌^◌, ◌<◌, ◌≤◌, ◌⊎◌, ℕ, IfOk, Ok, Err, None};
ghost use Rattle.input.specs.declared.ReadError.TheVariants as variants;
ghost use Rattle.input.specs.declared.cases.Ending.TheVariants.{CutShort, Whole};

use crate::ReadError;
use std::io;

// Where an input ended.
#[derive(Clone, Copy)]
pub enum Ending {
    // Behind a case.
    Whole,
    // Within a case, or it has more than were to be run.
    CutShort,
}

// What is counted of cases.
pub trait Tally: Copy {
    // What a case that was run leaves to be counted.
    type Outcome: Copy;

    // How many cases were counted.
    ghost cases: { Self → ℕ };

    fn count(&mut self, outcome: Self::Outcome)
        requires { cases self.old < 2 ^ 32 - 1 }
        ensures { cases self.new ≡ cases self.old + 1 };
}

// How many cases were run, and how many of them passed.
#[derive(Clone, Copy)]
pub struct Passes {
    pub cases: u32,
    pub passed: u32,
    ghost among_cases: { passed ≤ cases },
}

impl Tally for Passes {
    type Outcome = bool;

    ghost cases = { λ t. t.cases };

    fn count(&mut self, passes: bool) {
        self.cases += 1;
        self.passed += u32::from(passes);
    }
}

// Counts the cases that `next` reads and runs, until it gives None for the input's end. They are `limit` at most, since nothing says that an input ends.
pub fn run_cases<T: Tally, F: FnMut() -> Result<Option<T::Outcome>, ReadError>>(
    mut tally: T,
    limit: u32,
    mut next: F,
) -> io::Result<(T, Ending)>
    requires none_counted { T.cases tally ≡ 0 }
    requires callable { F.IsAlwaysCallable next }
    ensures counted { IfOk result (λ r. T.cases r.0 ≤ limit) }
    ensures whole { IfOk result (λ r. r.1 ≡ Whole → (f f' : F) × F.step f (Ok None) f') }
    ensures cut_short { IfOk result (λ r. r.1 ≡ CutShort → (T.cases r.0 ≡ limit) ⊎ ((f f' : F) × F.step f (Err variants.Broken) f')) }
{
    for _ in 0..limit {
        match next() {
            Ok(Some(outcome)) => tally.count(outcome),
            Ok(None) => return Ok((tally, Ending::Whole)),
            Err(ReadError::Broken) => break,
            Err(ReadError::Io(e)) => return Err(e),
        }
    }
    Ok((tally, Ending::CutShort))
}
