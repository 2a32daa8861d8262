// The nodes: how many there are, and where each stands.
ghost use Rattle.std.specs.Prelude.{◌≡◌};
ghost use Rattle.svgtree.specs.Parse.{count_of, pair_place, pair_offset, pair_length_at, offset_of};

use bits::{get16, get32};
use sheet_fields::{header, pair};

pub fn node_count(s: &[u8]) -> u16
    ensures { result ≡ count_of s.now }
{
    get16(s, header::NODE_COUNT)
}

// Where the pair of node i stands; the one of the node count, where the pairs end.
pub fn pair_place(i: u16) -> usize
    ensures { result ≡ pair_place i }
{
    header::PAIRS + pair::SIZE * usize::from(i)
}

pub fn pair_offset(s: &[u8], i: u16) -> u32
    ensures { result ≡ pair_offset s.now i }
{
    get32(s, pair_place(i))
}

pub fn pair_length(s: &[u8], i: u16) -> u32
    ensures { result ≡ pair_length_at s.now i }
{
    get32(s, pair_place(i) + pair::LENGTH)
}

pub(crate) fn offset_at(s: &[u8], i: u16) -> u16
    ensures { result ≡ offset_of s.now i }
{
    (pair_offset(s, i) % 65536) as u16
}
