// The records of the list, one after the other, by their nodes and their names.
#![tactic(auto)]

ghost use Rattle.std.specs.Prelude.{◌≡◌, ◌≤◌, ◌<◌, length};
ghost use Rattle.bits.specs.Writer.{HasRoom, Writes};
ghost use Rattle.svgtree.specs.Parse.{count_of};
ghost use Rattle.child.specs.Means.{child_is};
ghost use Rattle.list_records.specs.Tables.{nobody, child_at, records_up_to, Below};

use bits::writer::Writer;
use chain::sheet::Sheet;
use chain::{Step, step_of};
use child::{Child, Kind, OneInput};
use geom::Rect;
use list_primitives::put_primitive;
use region::Frame;
use results::table::Names;
use tree::ColorInterpolation;

// Stands for a node that does not count; no table of `convert` has one. No Option: `put_records` takes any nodes of the sheet, and the records that it
// promises for them have a child for each node, this one too.
fn no_child(s: &[u8]) -> Child
    ensures { child_is s.now result ≡ nobody }
{
    Child {
        rect: Rect {
            left: 0.0,
            top: 0.0,
            right: 0.0,
            bottom: 0.0,
        },
        kind: Kind::Tile(OneInput {
            input: None,
            fields: (),
        }),
        color_interpolation: ColorInterpolation::LinearRGB,
        result: None,
    }
}

// The child that node i is.
pub fn child_of(sheet: Sheet<'_>, i: u16, frame: Frame) -> Child
    requires { i < count_of sheet.bytes.now }
    ensures { child_is sheet.entry.bytes.now result ≡ child_at frame sheet.entry.bytes.now i }
{
    match step_of(sheet, i, frame) {
        Ok(Step::Count(child)) => child,
        _ => no_child(sheet.bytes),
    }
}

// The records of some nodes, each under its name, with the names before it.
pub fn put_records(frame: Frame, nodes: &[u16], names: &Names, out: &mut Writer)
    requires each { (length nodes.now ≡ length names.now.entries.now) × (count_of names.now.bytes.now ≤ 512) × Below nodes.now (count_of names.now.bytes.now) (length nodes.now) }
    requires room { HasRoom out.old (length (records_up_to frame names.now.bytes.now nodes.now names.now.entries.now (length nodes.now))) }
    ensures { Writes out.old (length (records_up_to frame names.now.bytes.now nodes.now names.now.entries.now (length nodes.now))) (records_up_to frame names.now.bytes.now nodes.now names.now.entries.now (length nodes.now)) out.new }
{
    let sheet = Sheet { bytes: names.bytes };
    // No `zip` with the entries: a record is resolved with those before its own too, so the place is wanted all the same.
    for (j, &node) in nodes.iter().enumerate() {
        let before = Names {
            bytes: names.bytes,
            entries: &names.entries[..j],
        };
        let child = child_of(sheet, node, frame);
        put_primitive(&before, names.entries[j].name(), child, out);
    }
}
