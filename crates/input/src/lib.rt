// Reading cases that stand one behind the other, and seeing what a call left of an output, for the programs that run stored cases.
#![tactic(auto)]

ghost use Rattle.std.specs.Prelude.{◌≡◌, ◌<◌, ◌≤◌, ◌⊎◌, ◌↔◌, [], All, IfOk, IfSome, IsTrue, length, take};
ghost use Rattle.std.specs.Io.KnownBytes.{Consumes, IsAtEnd};
ghost use Rattle.input.specs.declared.ReadError.TheVariants as variants;

pub mod cases;

use std::io;
use std::io::Read;

// Why a case was not read.
#[derive(Debug, Drop)]
pub enum ReadError {
    // The input ends within the case, or a part of it is longer than its buffer.
    Broken,
    Io(io::Error),
}

impl From<io::Error> for ReadError {
    ghost from_gives = { λ e r. r ≡ variants.Io e };

    fn from(e: io::Error) -> Self {
        ReadError::Io(e)
    }
}

// Reads until buf is full or the input ends, and returns how many bytes it put at the start of buf, which std's `read_exact` doesn't say of an input that ends.
pub fn read_full<R: Read>(input: &mut R, buf: &mut [u8]) -> io::Result<usize>
    ensures within { IfOk result (λ n. n ≤ length buf.new) }
    ensures bytes { IfOk result (λ n. Consumes (R.remaining input.old) (R.remaining input.new) (take n buf.new)) }
    ensures end { IfOk result (λ n. n < length buf.new → IsAtEnd (R.remaining input.new)) }
{
    let mut done = 0;
    while done < buf.len() {
        let n = input.read(&mut buf[done..])?;
        if n == 0 {
            return Ok(done);
        }
        done += n;
    }
    Ok(done)
}

// Reads the N bytes that a case begins with, or gives None where the input ends before them.
pub fn read_head<R: Read, const N: usize>(input: &mut R) -> Result<Option<[u8; N]>, ReadError>
    ensures bytes { IfOk result (λ h. IfSome h (λ head. Consumes (R.remaining input.old) (R.remaining input.new) head)) }
    ensures none { result ≡ Ok None → Consumes (R.remaining input.old) (R.remaining input.new) [] × IsAtEnd (R.remaining input.new) }
    ensures broken { result ≡ Err ReadError.Broken → IsAtEnd (R.remaining input.new) }
{
    let mut head = [0u8; N];
    match read_full(input, &mut head)? {
        n if n == N => Ok(Some(head)),
        0 => Ok(None),
        _ => Err(ReadError::Broken),
    }
}

// Reads n bytes to the start of buf, and gives them. What buf holds after an error is left open.
pub fn read_part<'a, R: Read>(
    input: &mut R,
    buf: &'a mut [u8],
    n: usize,
) -> Result<&'a [u8], ReadError>
    ensures size { IfOk result (λ part. length part.now ≡ n) }
    ensures bytes { IfOk result (λ part. Consumes (R.remaining input.old) (R.remaining input.new) part.now) }
    ensures too_long { length buf.old < n → (result ≡ Err ReadError.Broken) × (input.new ≡ input.old) }
    ensures broken { result ≡ Err ReadError.Broken → (length buf.old < n) ⊎ IsAtEnd (R.remaining input.new) }
{
    let part = buf.get_mut(..n).ok_or(ReadError::Broken)?;
    if read_full(input, part)? < n {
        return Err(ReadError::Broken);
    }
    Ok(part)
}

// What the programs fill an output with before a call, so that what the call wrote shows.
pub const UNWRITTEN: u8 = 170;

// Whether each byte is as it was before the call.
pub fn is_unwritten(s: &[u8]) -> bool
    ensures { IsTrue result ↔ All (λ x. x ≡ UNWRITTEN) s.now }
{
    s.iter().all(|x| *x == UNWRITTEN)
}
