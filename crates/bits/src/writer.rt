// Bytes written one after the other into a buffer that is lent.
ghost use Rattle.std.specs.Prelude.{◌≡◌, ◌∷◌, [], ◌+◌, ◌≤◌, length, replicate, ℕ, List};
ghost use Rattle.bits.specs.Bytes.{bytes_from, bytes16, bytes32, bytes_f};
ghost use Rattle.bits.specs.Writer.{HasRoom, Writes};

use crate::{copy_run, left_from};
use std::num::f32_to_bits_with_nan;

// A number as its bytes, of which there are always as many, the lowest first. Each type calls its own `to_le_bytes`, whose array has the type's size.
pub trait ToBytes: Copy + Drop {
    ghost size: { ℕ };

    ghost bytes: { Self → List ℕ };

    fn put(self, out: &mut Writer)
        requires { HasRoom out.old size }
        ensures { Writes out.old size (bytes self) out.new };
}

// A block for each type: a macro writes no ghost members, and the array of bytes has another length in each. u32's call has its type's name, since two
// edits need a text of it that stands here once.

impl ToBytes for u8 {
    ghost size = { 1 };

    ghost bytes = { λ v. v ∷ [] };

    fn put(self, out: &mut Writer) {
        out.put_bytes(&self.to_le_bytes());
    }
}

impl ToBytes for u16 {
    ghost size = { 2 };

    ghost bytes = { bytes16 };

    #[tactic(auto, unfolding(crate::specs::Bytes::bytes16))]
    fn put(self, out: &mut Writer) {
        out.put_bytes(&self.to_le_bytes());
    }
}

impl ToBytes for u32 {
    ghost size = { 4 };

    ghost bytes = { bytes32 };

    #[tactic(auto, unfolding(crate::specs::Bytes::bytes32))]
    fn put(self, out: &mut Writer) {
        out.put_bytes(&u32::to_le_bytes(self));
    }
}

impl ToBytes for f32 {
    ghost size = { 4 };

    ghost bytes = { bytes_f };

    fn put(self, out: &mut Writer) {
        f32_to_bits_with_nan(self).put(out);
    }
}

// A buffer that is written from a place on. Not std's `Write` for `&mut [u8]`: its clauses say how many bytes were written and not which (its contents are None), and each call would
// give a Result that can't be an error where there is room.
#[derive(Drop)]
pub struct Writer<'a> {
    pub out: &'a mut [u8],
    pub at: usize,
}

impl<'a> Writer<'a> {
    pub fn new(out: &'a mut [u8]) -> Writer<'a>
        ensures buffer { result.out.ghost_name ≡ out.entry.ghost_name }
        ensures bytes { result.out.now ≡ out.old }
        ensures start { result.at ≡ 0 }
    {
        Writer { out, at: 0 }
    }

    pub fn put_bytes(&mut self, bytes: &[u8])
        requires { HasRoom self.old (length bytes.now) }
        ensures { Writes self.old (length bytes.now) bytes.now self.new }
    {
        let end = self.at + bytes.len();
        self.out[self.at..end].copy_from_slice(bytes);
        self.at = end;
    }

    // The same, of a length that only the call knows: not by `put_bytes`, whose copy is then a call of `memmove`.
    pub fn put_run(&mut self, bytes: &[u8])
        requires { HasRoom self.old (length bytes.now) }
        ensures { Writes self.old (length bytes.now) bytes.now self.new }
    {
        let end = self.at + bytes.len();
        copy_run(bytes, &mut self.out[self.at..end]);
        self.at = end;
    }

    pub fn put<T: ToBytes>(&mut self, v: T)
        requires { HasRoom self.old T.size }
        ensures { Writes self.old T.size (T.bytes v) self.new }
    {
        v.put(self);
    }

    // A run of lent bytes, copied. Its end is compared by hand: a copy of 40 bytes took 66 instructions with `s.get(start..end)` in place of 22.
    pub fn copy(&mut self, s: &[u8], from: u32, n: u16)
        requires { HasRoom self.old n }
        ensures { Writes self.old n (bytes_from s.now from n) self.new }
    {
        let start = from as usize;
        let end = start + usize::from(n);
        if end <= s.len() {
            self.put_run(&s[start..end]);
            return;
        }
        let left = left_from(s, start);
        self.put_run(left);
        self.put_zeros(usize::from(n) - left.len());
    }

    fn put_zeros(&mut self, n: usize)
        requires { HasRoom self.old n }
        ensures { Writes self.old n (replicate n 0) self.new }
    {
        let end = self.at + n;
        self.out[self.at..end].fill(0);
        self.at = end;
    }
}
