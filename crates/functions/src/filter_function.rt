// A shorthand filter function. Its functions are in the root, since a clause that names the type can't stand in its file.
ghost use Rattle.std.specs.Prelude.{◌≡◌};
ghost use Rattle.functions.specs.Names.{code_by};
ghost use Rattle.functions.specs.Records.{code_of};

use crate::FunctionName;

// The bytes of a function record, and the function that its code names.
#[derive(Clone, Copy)]
pub struct FilterFunction<'a> {
    pub bytes: &'a [u8],
    pub name: FunctionName,
    ghost named: { code_by name ≡ code_of bytes.now },
}
