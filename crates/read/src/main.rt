// Reads stored lists, the converter's own and damaged ones, and prints for each its name and whether it is in the layout of form 1; then how many there are,
// how many are in the layout and how many are not. `harness/run.sh lists` writes the lists and, with a reader of its own, the answers.
// A list is stored as its name's length in one byte, its own length in four, the lowest first; then the name, then the list.
#![tactic(auto)]

use bits::get32;
use input::cases::{Ending, Passes, run_cases};
use input::{ReadError, read_head, read_part};
use list_layout::in_layout;
use list_read::ListForm;
use std::io;
use std::io::Read;

#[derive(Drop)]
struct Buffers {
    name: [u8; 255],
    list: [u8; 65536],
}

#[derive(Clone, Copy)]
struct Stored<'a> {
    name: &'a [u8],
    list: &'a [u8],
}

impl Buffers {
    // Reads the next list, or gives None at the end of the input.
    fn next_list(&mut self, input: &mut impl Read) -> Result<Option<Stored<'_>>, ReadError> {
        let Some(head) = read_head::<_, 5>(input)? else {
            return Ok(None);
        };
        let Buffers { name, list } = self;
        let name = read_part(input, name, usize::from(head[0]))?;
        let list = read_part(input, list, get32(&head, 1) as usize)?;
        Ok(Some(Stored { name, list }))
    }
}

impl Stored<'_> {
    // Prints the list's line, and says whether the list is in the layout.
    fn check(self, rt: &impl Print) -> io::Result<bool> {
        let is_inside = in_layout(self.list, ListForm::One);
        rt.write_all(self.name)?;
        rt.println(if is_inside { ": in" } else { ": out" })?;
        Ok(is_inside)
    }
}

fn report(rt: &impl Print, lists: Passes, ending: Ending) -> io::Result<()> {
    let Passes {
        cases: lists,
        passed: inside,
    } = lists;
    println!(rt;
        "{lists} lists, {inside} in the layout, {} not",
        lists - inside
    )?;
    if let Ending::CutShort = ending {
        println!(rt; "the input is cut short")?;
    }
    Ok(())
}

fn run(rt: &impl Print, input: &mut impl Read, buffers: &mut Buffers) -> io::Result<()> {
    let none = Passes {
        cases: 0,
        passed: 0,
    };
    let (lists, ending) = run_cases(none, 100_000, || {
        let Some(stored) = buffers.next_list(input)? else {
            return Ok(None);
        };
        Ok(Some(stored.check(rt)?))
    })?;
    report(rt, lists, ending)
}

fn main(rt: HostRuntime) -> io::Result<()> {
    let mut buffers = Buffers {
        name: [0; 255],
        list: [0; 65536],
    };
    run(&rt, &mut rt.stdin(), &mut buffers)
}
