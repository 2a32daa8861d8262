// The children of a sheet to the list of their filter primitives, in any frame: `collect_children` of parser/filter.rs. Each child is read, named and
// measured; then the list is written, if it fits.
#![tactic(auto)]

ghost use Rattle.std.specs.Prelude.{◌≡◌, ◌*◌, ◌^◌, ◌≤◌, ◌<◌, length};
ghost use Rattle.answer.specs.Outcomes.{Answers, answer_of};
ghost use Rattle.svgtree.specs.Parse.{sheet_of};
ghost use Rattle.results.specs.Means.{StateOk, Fresh};
ghost use Rattle.list_records.specs.Tables.{Measures, children_is};
ghost use Rattle.convert.specs.Children.{placeable, list_of, fit, children_outcome};
ghost use Rattle.convert.specs.Plans.{Planned, Pushed, Collects};

use answer::Refusal;
use bits::writer::Writer;
use chain::next_child;
use chain::sheet::Sheet;
use child::Child;
use list_primitives::primitive_size;
use list_records::put_records;
use list_values::put_pairs;
use region::Frame;
use results::table::{Entry, Names};
use results::{FilterResults, gen_result};
use svgtree::Units;

// The children that count, each at one place of three tables: its node's number, what it is called, and how many bytes its record is; their naming state; and
// the size of all records. Arrays of a fixed length with one count for all, since there is no heap: an `ArrayVec` for each would hold the count three times, and a clause
// would have to say that the three are equal. Names have a table of their own, since a search goes over them alone; nodes and sizes too, since `put_records` takes the nodes
// and `put_pairs` the sizes, each as a slice.
#[derive(Drop)]
pub struct Tables {
    pub results: FilterResults,
    pub total: u32,
    pub names: [Entry; 512],
    pub nodes: [u16; 512],
    pub sizes: [u32; 512],
}

impl Tables {
    fn new() -> Self
        ensures { Fresh result.results × (result.total ≡ 0) }
    {
        Tables {
            results: FilterResults::new(),
            total: 0,
            names: [Entry { code: 0 }; 512],
            nodes: [u16::MAX; 512], // no node has this number; with zeros here all tables become one `memset`, which takes more instructions
            sizes: [0; 512],
        }
    }

    // One child more, of this node: it is named and measured.
    fn push(&mut self, s: &[u8], node: u16, child: Child)
        requires named { StateOk s.now self.old.names self.old.results × (self.old.results.count < 512) × (self.old.results.idx < 2 ^ 31) }
        requires total { self.old.total ≤ 4194304 * self.old.results.count }
        ensures { Pushed s.now node child self.old self.new }
    {
        let k = self.results.count as usize;
        self.nodes[k] = node;
        self.results = gen_result(s, self.results, child.result, &mut self.names);
        let name = self.names[k].name();
        let entries = &self.names[..k];
        let size = primitive_size(&Names { bytes: s, entries }, name, child);
        self.sizes[k] = size;
        self.total += size;
    }

    // Each child is read, named and measured; nothing is written. What the tables held before goes. Where a child refuses the sheet, they hold the children
    // before it.
    pub fn collect_children(&mut self, sheet: Sheet<'_>, frame: Frame) -> Result<(), Refusal>
        ensures { Collects frame sheet.entry.bytes.now self.new result }
    {
        self.results = FilterResults::new();
        self.total = 0;
        // The next node's number is kept by hand: an iterator's items would be Results, and its law would have to say what comes behind a refusal, which no caller asks for.
        let mut i: u16 = 0;
        while let Some((j, child)) = next_child(sheet, i, frame)? {
            self.push(sheet.bytes, j, child);
            i = j + 1;
        }
        Ok(())
    }

    // The list of the children, or a refusal. Nothing is written before the list's length is known to fit.
    pub fn finish(&self, sheet: Sheet<'_>, frame: Frame, out: &mut [u8]) -> Result<usize, Refusal>
        requires { Planned frame sheet.bytes.now self.now.nodes self.now.names self.now.results × Measures frame sheet.bytes.now self.now.nodes self.now.names self.now.sizes self.now.results.count self.now.total }
        ensures { Answers list_of (fit (length out.old) (children_is frame sheet.entry.bytes.now self.now.nodes self.now.results.count)) out.old (answer_of result) out.new }
    {
        let count = self.results.count;
        if count == 0 {
            return Err(Refusal::NoPrimitive);
        }
        let head = 2 + 8 * count as u32;
        let length = head as usize + self.total as usize;
        if out.len() < length {
            return Err(Refusal::ShortOutput);
        }
        let n = count as usize;
        let named = Names {
            bytes: sheet.bytes,
            entries: &self.names[..n],
        };
        let mut list = Writer::new(out);
        list.put(count);
        put_pairs(&self.sizes[..n], head, &mut list);
        put_records(frame, &self.nodes[..n], &named, &mut list);
        Ok(length)
    }
}

// Box units need a box.
pub fn is_placeable(frame: Frame) -> bool
    ensures { result ≡ placeable frame.units frame.bbox }
{
    match frame.units {
        Units::UserSpaceOnUse => true,
        Units::ObjectBoundingBox => frame.bbox.is_some(),
    }
}

// The children of a sheet in a frame, which may be another sheet's: the length of their list.
pub fn convert_children(sheet: Sheet<'_>, frame: Frame, out: &mut [u8]) -> Result<usize, Refusal>
    ensures { Answers list_of (children_outcome frame (sheet_of sheet.entry.bytes.now).nodes (length out.old)) out.old (answer_of result) out.new }
{
    if !is_placeable(frame) {
        return Err(Refusal::NoPrimitive);
    }
    let mut tables = Tables::new();
    tables.collect_children(sheet, frame)?;
    tables.finish(sheet, frame, out)
}
