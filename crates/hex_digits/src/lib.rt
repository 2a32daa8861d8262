// Bytes as lower-case hexadecimal digits. By hand, though the kit has a crate `hex`: the programs would rest on one library more than std, and its `encode_to_slice` wants an output cut to
// size out of the writer and gives a Result that can't be an error here.
#![tactic(auto)]

ghost use Rattle.std.specs.Prelude.{◌≡◌, [], ◌∷◌, ◌++◌, ◌+◌, ◌*◌, ◌≤◌, length};
ghost use Rattle.bits.specs.Writer.{HasRoom, Writes};
ghost use Rattle.hex_digits.specs.Hex.{glyph, hex_of};

use bits::byte;
use bits::writer::Writer;

#[tactic(auto, unfolding(crate::specs::Hex::glyph))]
fn digit(d: u8) -> u8
    ensures { result ≡ glyph d }
{
    byte(b"0123456789abcdef", d as usize)
}

// Two digits a byte.
pub fn put_hex(s: &[u8], out: &mut Writer)
    requires { HasRoom out.old (2 * length s.now) }
    ensures { Writes out.old (2 * length s.now) (hex_of s.now) out.new }
{
    for &b in s {
        out.put_bytes(&[digit(b / 16), digit(b % 16)]);
    }
}

// The same, and a newline.
pub fn put_hex_line(s: &[u8], out: &mut Writer)
    requires { HasRoom out.old (2 * length s.now + 1) }
    ensures { Writes out.old (2 * length s.now + 1) (hex_of s.now ++ (10 ∷ [])) out.new }
{
    put_hex(s, out);
    out.put(b'\n');
}
