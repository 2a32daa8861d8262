// Nodes in a row. Their functions are in the root, since a clause that names the type can't stand in its file.
ghost use Rattle.std.specs.Prelude.{◌+◌, ◌≤◌};

// So many nodes of a sheet, from number `first` on.
#[derive(Clone, Copy)]
pub struct NodeRun<'a> {
    pub bytes: &'a [u8],
    pub first: u16,
    pub count: u16,
    ghost within: { first + count ≤ 65536 },
}
