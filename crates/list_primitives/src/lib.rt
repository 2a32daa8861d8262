// The list's records: the size and the bytes of a primitive of every kind, its inputs resolved with the names of the records before it.
#![tactic(auto)]

ghost use Rattle.std.specs.Prelude.{◌≡◌, map, ◌+◌, ◌*◌, ◌^◌, ◌≤◌, ◌<◌, length};
ghost use Rattle.bits.specs.Writer.{HasRoom, Writes};
ghost use Rattle.bits.specs.Texts.{maybe_text_is};
ghost use Rattle.svgtree.specs.Parse.{node_at, nodes_from};
ghost use Rattle.tree.specs.List.{input_run, inputs_bytes, primitive_bytes};
ghost use Rattle.child.specs.Child.{in_of};
ghost use Rattle.list_fields.specs.Means.{inputs_is, inputs_end};
ghost use Rattle.list_primitives.specs.Tables.{input_bytes_in, primitive_in};

use bits::Text;
use bits::writer::Writer;
use child::{Child, Merge};
use list_fields::{Inputs, fields_size, inputs_of, kind_name, put_fields};
use list_values::ToList;
use names::aid;
use results::ResultName;
use results::table::Names;
use svgtree::SvgNode;

// One input, resolved with the names of the records before. No `ToList`: what an input is in the list depends on these names, and not on the sheet's bytes alone.

#[tactic(auto, using(results::specs::Sizes::input_counted))]
fn one_size(names: &Names, t: Option<Text>) -> u32
    ensures { (result ≡ length (input_bytes_in names.now (maybe_text_is names.now.bytes.now t))) × (result ≤ 258) }
{
    names.resolve_input(t).size(names.bytes)
}

#[tactic(auto, using(results::specs::Sizes::input_counted))]
fn put_one(names: &Names, t: Option<Text>, out: &mut Writer)
    requires { HasRoom out.old (length (input_bytes_in names.now (maybe_text_is names.now.bytes.now t))) }
    ensures { Writes out.old (length (input_bytes_in names.now (maybe_text_is names.now.bytes.now t))) (input_bytes_in names.now (maybe_text_is names.now.bytes.now t)) out.new }
{
    names.resolve_input(t).put_to(names.bytes, out);
}

// The `in` of node i.
fn in_of(s: &[u8], i: u16) -> Option<Text>
    ensures { maybe_text_is s.now result ≡ in_of (node_at s.now i) }
{
    SvgNode::get(s, i).attribute(aid::IN)
}

// Those of a merge's nodes.

#[tactic(auto, using(crate::proofs::Merges::merging))]
fn merge_size(names: &Names, merge: Merge) -> u32
    requires { merge.first + merge.count ≤ 512 }
    ensures { (result ≡ length (input_run (input_bytes_in names.now) (map in_of (nodes_from names.now.bytes.now merge.first merge.count)))) × (result ≤ 258 * 512) }
{
    let nodes = merge.first..merge.first + merge.count;
    nodes.map(|i| one_size(names, in_of(names.bytes, i))).sum()
}

#[tactic(auto, using(crate::proofs::Merges::merging))]
fn put_merge(names: &Names, merge: Merge, out: &mut Writer)
    requires few { merge.first + merge.count ≤ 512 }
    requires room { HasRoom out.old (length (input_run (input_bytes_in names.now) (map in_of (nodes_from names.now.bytes.now merge.first merge.count)))) }
    ensures { Writes out.old (length (input_run (input_bytes_in names.now) (map in_of (nodes_from names.now.bytes.now merge.first merge.count)))) (input_run (input_bytes_in names.now) (map in_of (nodes_from names.now.bytes.now merge.first merge.count))) out.new }
{
    for i in merge.first..merge.first + merge.count {
        put_one(names, in_of(names.bytes, i), out);
    }
}

// The inputs of a kind: none, one, two, or a Vec with its count. That a Vec is of 512 nodes at most is a clause of these two functions and of the two above, and
// no ghost field of `Merge` or `Inputs`: `kind_of` makes a `Merge` of the nodes of any bytes, and `inputs_of` takes any kind, also one that no child has; both would have to ask for the bound.

#[tactic(auto, using(crate::proofs::Merges::inputs_long), unfolding(bits::specs::Bytes::bytes16))]
fn inputs_size(names: &Names, inputs: Inputs) -> u32
    requires { inputs_end inputs ≤ 512 }
    ensures { (result ≡ length (inputs_bytes (input_bytes_in names.now) (inputs_is names.now.bytes.now inputs))) × (result < 2 ^ 20) }
{
    match inputs {
        Inputs::Nothing => 0,
        Inputs::One(t) => one_size(names, t),
        Inputs::Two(t, u) => one_size(names, t) + one_size(names, u),
        Inputs::Merge(v) => 2 + merge_size(names, v),
    }
}

#[tactic(auto, using(crate::proofs::Merges::inputs_long), unfolding(bits::specs::Bytes::bytes16))]
fn put_inputs(names: &Names, inputs: Inputs, out: &mut Writer)
    requires few { inputs_end inputs ≤ 512 }
    requires room { HasRoom out.old (length (inputs_bytes (input_bytes_in names.now) (inputs_is names.now.bytes.now inputs))) }
    ensures { Writes out.old (length (inputs_bytes (input_bytes_in names.now) (inputs_is names.now.bytes.now inputs))) (inputs_bytes (input_bytes_in names.now) (inputs_is names.now.bytes.now inputs)) out.new }
{
    match inputs {
        Inputs::Nothing => {}
        Inputs::One(t) => put_one(names, t, out),
        Inputs::Two(t, u) => {
            put_one(names, t, out);
            put_one(names, u, out);
        }
        Inputs::Merge(v) => {
            out.put(v.count);
            put_merge(names, v, out);
        }
    }
}

// A record: rectangle, colour interpolation, name, and the kind: its place, its inputs and its other fields. Name and child stay two parameters: a child is read before it is
// named, and read again where it is written, while its name stays in the table.

#[tactic(auto, using(crate::proofs::Parts::parts, results::specs::Sizes::name_counted))]
pub fn primitive_size(names: &Names, name: ResultName, child: Child) -> u32
    ensures { (result ≡ length (primitive_bytes (primitive_in names.now name child))) × (result < 2 ^ 22) }
{
    let inputs = inputs_of(child.kind);
    18 + name.size(names.bytes) + inputs_size(names, inputs) + fields_size(names.bytes, child.kind)
}

#[tactic(auto, using(crate::proofs::Parts::parts, results::specs::Sizes::name_counted))]
pub fn put_primitive(names: &Names, name: ResultName, child: Child, out: &mut Writer)
    requires { HasRoom out.old (length (primitive_bytes (primitive_in names.now name child))) }
    ensures { Writes out.old (length (primitive_bytes (primitive_in names.now name child))) (primitive_bytes (primitive_in names.now name child)) out.new }
{
    child.rect.put_to(names.bytes, out);
    out.put(u8::from(child.color_interpolation));
    name.put_to(names.bytes, out);
    out.put(u8::from(kind_name(child.kind)));
    put_inputs(names, inputs_of(child.kind), out);
    put_fields(names.bytes, child.kind, out);
}
