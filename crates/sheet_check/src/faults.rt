// What is wrong with the values of a sheet's nodes. The tests of refusals 10, 11 and 3 go over the whole sheet, one after the other; here one walk keeps the
// worst fault.
ghost use Rattle.std.specs.Prelude.{◌≡◌};
ghost use Rattle.sheet_check.specs.Means.{fault_from, refusal_from, number_fault, worse_of};

use answer::Refusal;
use decimal::TextFault;

// The worst last: a number that 3 refuses, a typed list outside the limits (11), one outside the grammar (10). No fault is better than any.
#[derive(Clone, Copy, PartialEq, Eq, PartialOrd, Ord)]
pub enum Fault {
    Number,
    Limits,
    Grammar,
}

impl From<TextFault> for Fault {
    ghost from_gives = { λ text fault. fault ≡ fault_from text };

    fn from(text: TextFault) -> Fault {
        match text {
            TextFault::OutsideLimits => Fault::Limits,
            TextFault::OutsideGrammar => Fault::Grammar,
        }
    }
}

impl From<Fault> for Refusal {
    ghost from_gives = { λ fault refusal. refusal ≡ refusal_from fault };

    fn from(fault: Fault) -> Refusal {
        match fault {
            Fault::Number => Refusal::BadNumber,
            Fault::Limits => Refusal::OutsideLimits,
            Fault::Grammar => Refusal::OutsideGrammar,
        }
    }
}

pub(crate) fn number_fault(ok: bool) -> Option<Fault>
    ensures { result ≡ number_fault ok }
{
    if ok { None } else { Some(Fault::Number) }
}

// The worse of two faults.
pub(crate) fn worse(a: Option<Fault>, b: Option<Fault>) -> Option<Fault>
    ensures { result ≡ worse_of a b }
{
    a.max(b)
}
