// Reads a sheet from standard input and prints its list in lower-case hex and a newline, or the number of the refusal in decimal and a newline.
#![tactic(auto)]

ghost use Rattle.std.specs.Prelude.{◌≤◌, length};

use bits::writer::Writer;
use hex_digits::put_hex_line;
use input::read_full;
use std::io;
use zatongae::convert_sheet;

fn print_list(rt: &impl Print, list: &[u8]) -> io::Result<()>
    requires { length list.now ≤ 65536 }
{
    let mut text = [0u8; 131073];
    let mut line = Writer::new(&mut text);
    put_hex_line(list, &mut line);
    // by the place that the writer has come to: its buffer is lent to it as a whole
    let n = line.at;
    rt.write_all(&text[..n])
}

fn main(rt: HostRuntime) -> io::Result<()> {
    // one byte more than a sheet may have, so that a longer input is a sheet that is too long
    let mut sheet = [0u8; 65537];
    let mut out = [0u8; 65536];
    // `n` and no slice: `read_full` counts, as `Read::read` does, since a case's head asks how many bytes came
    let n = read_full(&mut rt.stdin(), &mut sheet)?;
    match convert_sheet(&sheet[..n], &mut out) {
        Ok(length) => print_list(&rt, &out[..length]),
        Err(refusal) => rt.println(u32::from(refusal)),
    }
}
