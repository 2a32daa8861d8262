// A run of the lent bytes.
ghost use Rattle.std.specs.Prelude.{◌+◌, ◌^◌, ◌<◌};

use bits::byte;

// So many bytes from a place on. No slice: a window may reach past the lent bytes, where zeros are read, and no caller has to rule that out.
#[derive(Clone, Copy)]
pub struct Window<'a> {
    pub bytes: &'a [u8],
    pub at: usize,
    pub len: usize,
    pub ghost within: { (at + len < 2 ^ 40) × (len < 65536) },
}

impl<'a> Window<'a> {
    ghost use Rattle.std.specs.Prelude.{ℕ, Bool, ◌≡◌, ◌-◌, ◌≤◌, get_or, drop, take};
    ghost use Rattle.std.specs.List.{slice_get, prefix_len};
    ghost use Rattle.decimal.specs.Windows.{seen, starts_with};

    pub fn new(bytes: &'a [u8], at: u32, len: u16) -> Window<'a>
        ensures { (result.bytes ≡ bytes.entry) × (result.at ≡ at) × (result.len ≡ len) }
    {
        Window {
            bytes,
            at: at as usize,
            len: usize::from(len),
        }
    }

    // Its byte with k others before it.
    #[inline]
    #[tactic(auto, using(crate::proofs::Windows::seen_get))]
    pub(crate) fn get(self, k: usize) -> u8
        requires { k < self.len }
        ensures { result ≡ get_or (seen self.entry) k 0 }
    {
        byte(self.bytes, self.at + k)
    }

    // Its first byte, none where nothing is left.
    #[inline]
    #[tactic(auto, using(crate::proofs::Windows::first_none, crate::proofs::Windows::first_some))]
    pub fn first(self) -> Option<u8>
        ensures { result ≡ slice_get (seen self.entry) 0 }
    {
        if self.len == 0 {
            return None;
        }
        Some(byte(self.bytes, self.at))
    }

    // Whether its first byte is b.
    #[inline]
    #[tactic(auto, using(crate::proofs::Windows::starts_none, crate::proofs::Windows::starts_first))]
    pub(crate) fn starts_with(self, b: u8) -> bool
        ensures { result ≡ starts_with b (seen self.entry) }
    {
        0 < self.len && byte(self.bytes, self.at) == b
    }

    // What follows its first n bytes.
    #[inline]
    #[tactic(auto, using(crate::proofs::Windows::seen_behind))]
    pub fn behind(self, n: usize) -> Window<'a>
        requires { n ≤ self.len }
        ensures { (seen result ≡ drop n (seen self.entry)) × (result.len ≡ self.entry.len - n) }
    {
        Window {
            bytes: self.bytes,
            at: self.at + n,
            len: self.len - n,
        }
    }

    // Its first n bytes.
    #[inline]
    #[tactic(auto, using(crate::proofs::Windows::seen_prefix))]
    pub fn prefix(self, n: usize) -> Window<'a>
        requires { n ≤ self.len }
        ensures { (seen result ≡ take n (seen self.entry)) × (result.len ≡ n) }
    {
        Window {
            bytes: self.bytes,
            at: self.at,
            len: n,
        }
    }

    // How many of its bytes pass a test before the first that does not.
    #[inline]
    pub fn len_while<F: Fn(u8) -> bool>(self, test: F) -> usize
        requires { F.IsAlwaysCallable test }
        ensures within { result ≤ self.entry.len }
        ensures len { (p : ℕ → Bool) → ((b : ℕ) (r : Bool) → b < 256 → F.post test b r → r ≡ p b) → result ≡ prefix_len p (seen self.entry) }
    {
        (0..self.len)
            .find(|n| !test(byte(self.bytes, self.at + *n)))
            .unwrap_or(self.len)
    }
}
