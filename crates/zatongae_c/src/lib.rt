// The calls of crate `zatongae` for C, under the same names and with the same clauses: the archive's symbols, which include/zatongae.h declares.
// A crate of their own, since a crate is a library or a static library and the programs stand on `zatongae`; each clause is repeated, so that what C calls is promised where it is exported.
#![tactic(auto)]

ghost use Rattle.std.specs.Prelude.{◌≡◌};
ghost use Rattle.std.specs.Float.{binary32, binary64};
ghost use Rattle.std.specs.Float.Ieee.{of_bits, to_bits};
ghost use Rattle.num.specs.Narrowed.{narrowed};
ghost use Rattle.functions.specs.Call.{ConvertedFunction};
ghost use Rattle.zatongae.specs.Call.{Converted};

use answer::Answer;

#[unsafe(no_mangle)]
pub extern "C" fn zatongae_convert(sheet: &[u8], out: &mut [u8]) -> Answer
    ensures { Converted sheet.now out.old result out.new }
{
    zatongae::zatongae_convert(sheet, out)
}

#[unsafe(no_mangle)]
pub extern "C" fn zatongae_convert_function(record: &[u8], out: &mut [u8]) -> Answer
    ensures { ConvertedFunction «record».now out.old result out.new }
{
    zatongae::zatongae_convert_function(record, out)
}

#[unsafe(no_mangle)]
pub extern "C" fn zatongae_narrow(bits: u64) -> u32
    ensures { result ≡ to_bits binary32 (narrowed (of_bits binary64 bits)) }
{
    zatongae::zatongae_narrow(bits)
}
