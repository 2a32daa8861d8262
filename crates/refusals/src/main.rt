// Runs sheets that a call must refuse, and some that stand just inside a limit, with banner's output buffer, and prints a line for each: its name, the number,
// and whether the output is as it was. The stored input is written by tools/refusal_sheets.py, which says how a case is laid out.
#![tactic(auto)]

use bits::get32;
use input::cases::{Ending, Passes, run_cases};
use input::{ReadError, UNWRITTEN, is_unwritten, read_head, read_part};
use std::io;
use std::io::Read;
use zatongae::zatongae_convert;

#[derive(Drop)]
struct Buffers {
    name: [u8; 255],
    sheet: [u8; 65537],
    out: [u8; 65536],
}

#[derive(Drop)]
struct Case<'a> {
    name: &'a [u8],
    expected: u32,
    sheet: &'a [u8],
    out: &'a mut [u8],
}

impl Buffers {
    // Reads the next case, or gives None at the end of the input.
    fn next_case(&mut self, input: &mut impl Read) -> Result<Option<Case<'_>>, ReadError> {
        let Some(head) = read_head::<_, 8>(input)? else {
            return Ok(None);
        };
        let Buffers { name, sheet, out } = self;
        let name = read_part(input, name, usize::from(head[0]))?;
        let expected = u32::from(head[1]);
        let sheet = read_part(input, sheet, get32(&head, 4) as usize)?;
        Ok(Some(Case {
            name,
            expected,
            sheet,
            out,
        }))
    }
}

impl Case<'_> {
    // Prints the case's line, and says whether the number is the expected one.
    fn run(self, rt: &impl Print) -> io::Result<bool> {
        let Case {
            name,
            expected,
            sheet,
            out,
        } = self;
        out.fill(UNWRITTEN);
        let answer = zatongae_convert(sheet, out);
        let number = answer.number;
        let length = answer.length;
        let left = output_left(out, number, length);
        rt.write_all(name)?;
        print!(rt; ": {number}, length {length}, {left}")?;
        if number != expected {
            print!(rt; ", EXPECTED {expected}")?;
        }
        println!(rt)?;
        Ok(number == expected)
    }
}

// What a call left of an output that was filled before it: all of it, or all that is behind the list. By the number, as a case has it, and no `Result`: it is the
// calls that C gets that are tried here, and their length too where they refuse.
fn output_left(out: &[u8], number: u32, length: usize) -> &'static str {
    if !out.get(length..).is_some_and(is_unwritten) {
        "OUTPUT CHANGED"
    } else if number == 0 {
        "output behind the list unchanged"
    } else {
        "output unchanged"
    }
}

fn report(rt: &impl Print, cases: Passes, ending: Ending) -> io::Result<()> {
    let Passes { cases, passed } = cases;
    println!(rt; "{cases} cases, {} not as expected", cases - passed)?;
    if let Ending::CutShort = ending {
        println!(rt; "the input is cut short")?;
    }
    Ok(())
}

fn run(rt: &impl Print, input: &mut impl Read, buffers: &mut Buffers) -> io::Result<()> {
    let none = Passes {
        cases: 0,
        passed: 0,
    };
    let (cases, ending) = run_cases(none, 1000, || {
        let Some(case) = buffers.next_case(input)? else {
            return Ok(None);
        };
        Ok(Some(case.run(rt)?))
    })?;
    report(rt, cases, ending)
}

fn main(rt: HostRuntime) -> io::Result<()> {
    let mut buffers = Buffers {
        name: [0; 255],
        sheet: [0; 65537],
        out: [0; 65536],
    };
    run(&rt, &mut rt.stdin(), &mut buffers)
}
