// Replays stored answers of usvg's own code: runs the library on each input of the file `cases`, compares, and prints how many there were.
// `harness/run.sh store` makes the file. A case is five numbers of four bytes, the lowest first: what is called (0 a sheet, 1 a function record,
// 2 narrowing),
// the input's length, the output's length, the number wanted, the length wanted; then the input, then the bytes wanted. Narrowing has an
// f64's bits as its input, and the f32's as its number.
#![tactic(auto)]

ghost use Rattle.std.specs.Prelude.{◌+◌, ◌≤◌};

use bits::{get32, get64};
use input::cases::{Ending, Tally, run_cases};
use input::{ReadError, UNWRITTEN, is_unwritten, read_head, read_part};
use std::io::Read;
use std::{fs, io};
use zatongae::{zatongae_convert, zatongae_convert_function, zatongae_narrow};

#[derive(Clone, Copy)]
enum Call {
    Sheet,
    Record,
    Narrowing,
}

impl TryFrom<u32> for Call {
    type Error = ReadError;

    fn try_from(number: u32) -> Result<Self, ReadError> {
        match number {
            0 => Ok(Call::Sheet),
            1 => Ok(Call::Record),
            2 => Ok(Call::Narrowing),
            _ => Err(ReadError::Broken),
        }
    }
}

#[derive(Drop)]
struct Buffers {
    // one byte more than a sheet can have, so that a longer one can be replayed
    input: [u8; 65537],
    out: [u8; 65536],
    want: [u8; 65536],
}

#[derive(Drop)]
struct Case<'a> {
    call: Call,
    input: &'a [u8],
    out: &'a mut [u8],
    number: u32,
    want: &'a [u8],
}

impl Buffers {
    // Reads the next case, or gives None at the end of the file.
    fn next_case(&mut self, file: &mut impl Read) -> Result<Option<Case<'_>>, ReadError> {
        let Some(head) = read_head::<_, 20>(file)? else {
            return Ok(None);
        };
        let Buffers { input, out, want } = self;
        let call = Call::try_from(get32(&head, 0))?;
        let input = read_part(file, input, get32(&head, 4) as usize)?;
        let want = read_part(file, want, get32(&head, 16) as usize)?;
        // narrowing writes no output
        let room = match call {
            Call::Narrowing => 0,
            _ => get32(&head, 8) as usize,
        };
        let out = out.get_mut(..room).ok_or(ReadError::Broken)?;
        let number = get32(&head, 12);
        Ok(Some(Case {
            call,
            input,
            out,
            number,
            want,
        }))
    }
}

impl Case<'_> {
    // Number, length, the bytes written, and the bytes not written. Stored are the answers that C gets, so the numbers are compared and no `Result`.
    fn agrees(self) -> bool {
        let Case {
            call,
            input,
            out,
            number,
            want,
        } = self;
        out.fill(UNWRITTEN);
        let answer = match call {
            Call::Sheet => zatongae_convert(input, out),
            Call::Record => zatongae_convert_function(input, out),
            Call::Narrowing => return zatongae_narrow(get64(input, 0)) == number,
        };
        answer.number == number
            && answer.length == want.len()
            && out.strip_prefix(want).is_some_and(is_unwritten)
    }
}

#[derive(Clone, Copy)]
struct Counts {
    sheets: u32,
    records: u32,
    narrowed: u32,
    differences: u32,
    ghost among_cases: { differences ≤ sheets + records + narrowed },
}

impl Tally for Counts {
    // What was called, and whether the answer agrees.
    type Outcome = (Call, bool);

    ghost cases = { λ t. t.sheets + t.records + t.narrowed };

    fn count(&mut self, (call, agrees): (Call, bool)) {
        match call {
            Call::Sheet => self.sheets += 1,
            Call::Record => self.records += 1,
            Call::Narrowing => self.narrowed += 1,
        }
        self.differences += u32::from(!agrees);
    }
}

fn run(file: &mut impl Read, buffers: &mut Buffers) -> io::Result<(Counts, Ending)> {
    let none = Counts {
        sheets: 0,
        records: 0,
        narrowed: 0,
        differences: 0,
    };
    run_cases(none, 4_000_000_000, || {
        let Some(case) = buffers.next_case(file)? else {
            return Ok(None);
        };
        let call = case.call;
        Ok(Some((call, case.agrees())))
    })
}

fn report(rt: &impl Print, counts: Counts, ending: Ending) -> io::Result<()> {
    let Counts {
        sheets,
        records,
        narrowed,
        differences,
    } = counts;
    print!(rt; "{sheets} sheets, {records} function records, ")?;
    println!(rt; "{narrowed} numbers narrowed, {differences} differences")?;
    if let Ending::CutShort = ending {
        println!(rt; "the file is broken off")?;
    }
    Ok(())
}

fn main(rt: HostRuntime) -> io::Result<()> {
    let mut file = fs::open(&rt, "cases")?;
    let mut buffers = Buffers {
        input: [0; 65537],
        out: [0; 65536],
        want: [0; 65536],
    };
    let (counts, ending) = run(&mut file, &mut buffers)?;
    report(&rt, counts, ending)
}
