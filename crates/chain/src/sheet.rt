// A sheet whose nodes are few. Its functions are in the root, since a clause that names the type can't stand in its file.
ghost use Rattle.std.specs.Prelude.{◌≤◌};
ghost use Rattle.svgtree.specs.Parse.{count_of};

// The bytes of a sheet with at most 512 nodes, as each has that `sheet_check` accepts.
#[derive(Clone, Copy)]
pub struct Sheet<'a> {
    pub bytes: &'a [u8],
    pub ghost few: { count_of bytes.now ≤ 512 },
}
