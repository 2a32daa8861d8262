// The table of names: an entry for each record, and the entries of the records so far with the bytes that they are about.
ghost use Rattle.std.specs.Prelude.{ℕ, ◌<◌, length, get_or};
ghost use Rattle.results.specs.Means.{Marked};

use std::marker::Model;

// What a record is called, as one number and no `ResultName`: a search passes over an entry by one comparison. With a second test for each entry it took 14 instructions an
// entry in place of 10. A clause sees it as that number, `entry_is`.
#[derive(Clone, Copy, PartialEq, Eq)]
pub struct Entry {
    pub code: u64,
}

impl Model for Entry {
    ghost Value = { ℕ };

    ghost view = { λ e. e.code };

    ghost inverse = { λ n. record { code = n } };
}

// What the records so far are called, in order: their entries, and the bytes that those of texts are places in.
#[derive(Clone, Copy)]
pub struct Names<'a> {
    pub bytes: &'a [u8],
    pub entries: &'a [Entry],
    pub ghost marked: { (j : ℕ) → j < length entries.now → Marked bytes.now (get_or entries.now j 0) },
}
