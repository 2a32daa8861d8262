// What the filter makes of each element: its kind, with the inputs as they are read.
#![tactic(auto)]

ghost use Rattle.std.specs.Prelude.{◌≡◌, map, ◌+◌};
ghost use Rattle.bits.specs.Texts.{maybe_text_is};
ghost use Rattle.svgtree.specs.Nodes.{node_of, nodes_of};
ghost use Rattle.tree.specs.Kinds as spec;
ghost use Rattle.child.specs.Child.{in_of};
ghost use Rattle.fe_blur.specs.GaussianBlur.{gaussian_blur_of};
ghost use Rattle.fe_flood.specs.Flood.{flood_of};
ghost use Rattle.fe_blur.specs.Offset.{offset_fields_of};
ghost use Rattle.fe_blur.specs.DropShadow.{drop_shadow_of};
ghost use Rattle.fe_color.specs.Blend.{mode_of};
ghost use Rattle.fe_color.specs.ColorMatrix.{color_matrix_kind_of};
ghost use Rattle.fe_color.specs.ComponentTransfer.{component_transfer_of};
ghost use Rattle.fe_color.specs.Composite.{composite_operator_of};
ghost use Rattle.fe_light.specs.DiffuseLighting.{diffuse_lighting_of};
ghost use Rattle.fe_light.specs.SpecularLighting.{specular_lighting_of};
ghost use Rattle.fe_kernel.specs.ConvolveMatrix.{convolve_matrix_of};
ghost use Rattle.fe_morphology.specs.Morphology.{morphology_of};
ghost use Rattle.fe_displacement_map.specs.DisplacementMap.{displacement_map_of};
ghost use Rattle.fe_turbulence.specs.Turbulence.{turbulence_of};
ghost use Rattle.elements.specs.Elements as element;
ghost use Rattle.elements.specs.Elements.{convolve_made, diffuse_made, specular_made, morphology_made, displacement_made, turbulence_made, in2_of, kind_of};
ghost use Rattle.elements.specs.Means.{Makes};

use answer::Refusal;
use child::{Kind, Merge, OneInput, TwoInputs};
use fe_blur::drop_shadow::convert_drop_shadow;
use fe_blur::gaussian_blur::convert_gaussian_blur;
use fe_blur::offset::convert_offset;
use fe_color::blend::convert_blend;
use fe_color::color_matrix::convert_color_matrix_kind;
use fe_color::component_transfer::convert_component_transfer;
use fe_color::composite::convert_composite;
use fe_displacement_map::convert_displacement_map;
use fe_flood::{convert_flood, create_dummy_primitive};
use fe_kernel::convolve_matrix::convert_convolve_matrix;
use fe_light::diffuse_lighting::convert_diffuse_lighting;
use fe_light::specular_lighting::convert_specular_lighting;
use fe_morphology::convert_morphology;
use fe_turbulence::convert_turbulence;
use geom::Size;
use names::{aid, eid};
use region::Frame;
use subregion::scale;
use svgtree::SvgNode;
use svgtree::run::NodeRun;

// What an element gives: a kind, none where no primitive is made of its tag, or a refusal.
pub type Made = Result<Option<Kind>, Refusal>;

// The inputs, as they are read, with the other fields.

#[inline]
fn with_input<T>(node: SvgNode<'_>, fields: T) -> OneInput<T>
    ensures input { maybe_text_is node.entry.bytes.now result.input ≡ in_of (node_of node.entry) }
    ensures rest { result.fields ≡ fields }
{
    OneInput {
        input: node.attribute(aid::IN),
        fields,
    }
}

#[inline]
fn with_inputs<T>(node: SvgNode<'_>, fields: T) -> TwoInputs<T>
    ensures first { maybe_text_is node.entry.bytes.now result.input1 ≡ in_of (node_of node.entry) }
    ensures second { maybe_text_is node.entry.bytes.now result.input2 ≡ in2_of (node_of node.entry) }
    ensures rest { result.fields ≡ fields }
{
    TwoInputs {
        input1: node.attribute(aid::IN),
        input2: node.attribute(aid::IN2),
        fields,
    }
}

// The kinds, a function for each element as in the source. They differ in the function that reads the fields and in the variant that holds them: a generic one
// would take both as closures, and its contract would say no more than those two calls.

fn make_blend(node: SvgNode<'_>) -> Made
    ensures { Makes node.entry.bytes.now result (element.made (spec.Blend (in_of (node_of node.entry)) (in2_of (node_of node.entry)) (mode_of (node_of node.entry)))) 0 }
{
    let fields = convert_blend(node);
    Ok(Some(Kind::Blend(with_inputs(node, fields))))
}

fn make_composite(node: SvgNode<'_>) -> Made
    ensures { Makes node.entry.bytes.now result (element.made (spec.Composite (in_of (node_of node.entry)) (in2_of (node_of node.entry)) (composite_operator_of (node_of node.entry)))) 0 }
{
    let fields = convert_composite(node);
    Ok(Some(Kind::Composite(with_inputs(node, fields))))
}

fn make_color_matrix(node: SvgNode<'_>) -> Made
    ensures { Makes node.entry.bytes.now result (element.made (spec.ColorMatrix (in_of (node_of node.entry)) (color_matrix_kind_of (node_of node.entry)))) 0 }
{
    let fields = convert_color_matrix_kind(node);
    Ok(Some(Kind::ColorMatrix(with_input(node, fields))))
}

fn make_drop_shadow(node: SvgNode<'_>, scale: Size) -> Made
    ensures { Makes node.entry.bytes.now result (element.made (spec.DropShadow (in_of (node_of node.entry)) (drop_shadow_of (node_of node.entry) scale))) 0 }
{
    let fields = convert_drop_shadow(node, scale);
    Ok(Some(Kind::DropShadow(with_input(node, fields))))
}

fn make_gaussian_blur(node: SvgNode<'_>, scale: Size) -> Made
    ensures { Makes node.entry.bytes.now result (element.made (spec.GaussianBlur (in_of (node_of node.entry)) (gaussian_blur_of (node_of node.entry) scale))) 0 }
{
    let fields = convert_gaussian_blur(node, scale);
    Ok(Some(Kind::GaussianBlur(with_input(node, fields))))
}

fn make_offset(node: SvgNode<'_>, scale: Size) -> Made
    ensures { Makes node.entry.bytes.now result (element.made (spec.Offset (in_of (node_of node.entry)) (offset_fields_of (node_of node.entry) scale))) 0 }
{
    let fields = convert_offset(node, scale);
    Ok(Some(Kind::Offset(with_input(node, fields))))
}

fn make_flood(node: SvgNode<'_>) -> Made
    ensures { Makes node.entry.bytes.now result (element.made (spec.Flood (flood_of (node_of node.entry)))) 0 }
{
    Ok(Some(Kind::Flood(convert_flood(node))))
}

fn make_tile(node: SvgNode<'_>) -> Made
    ensures { Makes node.entry.bytes.now result (element.made (spec.Tile (in_of (node_of node.entry)))) 0 }
{
    Ok(Some(Kind::Tile(with_input(node, ()))))
}

fn make_component_transfer(node: SvgNode<'_>, children: NodeRun<'_>) -> Made
    requires { node.bytes ≡ children.bytes }
    ensures { Makes node.entry.bytes.now result (element.made (spec.ComponentTransfer (in_of (node_of node.entry)) (component_transfer_of (nodes_of children.entry)))) 0 }
{
    let fields = convert_component_transfer(children);
    Ok(Some(Kind::ComponentTransfer(with_input(node, fields))))
}

fn make_merge(children: NodeRun<'_>) -> Made
    ensures { Makes children.entry.bytes.now result (element.made (spec.Merge (map in_of (nodes_of children.entry)))) (children.entry.first + children.entry.count) }
{
    Ok(Some(Kind::Merge(Merge {
        first: children.first,
        count: children.count,
    })))
}

fn dummy(bytes: &[u8]) -> Made
    ensures { Makes bytes.now result element.flood_made 0 }
{
    Ok(Some(Kind::Flood(create_dummy_primitive())))
}

fn make_convolve_matrix(node: SvgNode<'_>) -> Made
    ensures { Makes node.entry.bytes.now result (convolve_made (node_of node.entry) (convolve_matrix_of (node_of node.entry))) 0 }
{
    match convert_convolve_matrix(node) {
        Some(fields) => { Ok(Some(Kind::ConvolveMatrix(with_input(node, fields)))) }
        None => dummy(node.bytes),
    }
}

fn make_diffuse_lighting(node: SvgNode<'_>, children: NodeRun<'_>) -> Made
    ensures { Makes node.entry.bytes.now result (diffuse_made (node_of node.entry) (diffuse_lighting_of (node_of node.entry) (nodes_of children.entry))) 0 }
{
    match convert_diffuse_lighting(node, children) {
        Some(fields) => { Ok(Some(Kind::DiffuseLighting(with_input(node, fields)))) }
        None => dummy(node.bytes),
    }
}

fn make_specular_lighting(node: SvgNode<'_>, children: NodeRun<'_>) -> Made
    ensures { Makes node.entry.bytes.now result (specular_made (node_of node.entry) (specular_lighting_of (node_of node.entry) (nodes_of children.entry))) 0 }
{
    match convert_specular_lighting(node, children) {
        Some(fields) => { Ok(Some(Kind::SpecularLighting(with_input(node, fields)))) }
        None => dummy(node.bytes),
    }
}

fn make_morphology(node: SvgNode<'_>, scale: Size) -> Made
    ensures { Makes node.entry.bytes.now result (morphology_made (node_of node.entry) (morphology_of (node_of node.entry) scale)) 0 }
{
    let fields = convert_morphology(node, scale)?;
    Ok(Some(Kind::Morphology(with_input(node, fields))))
}

fn make_displacement_map(node: SvgNode<'_>, scale: Size) -> Made
    ensures { Makes node.entry.bytes.now result (displacement_made (node_of node.entry) (displacement_map_of (node_of node.entry) scale)) 0 }
{
    let fields = convert_displacement_map(node, scale)?;
    Ok(Some(Kind::DisplacementMap(with_inputs(node, fields))))
}

fn make_turbulence(node: SvgNode<'_>) -> Made
    ensures { Makes node.entry.bytes.now result (turbulence_made (turbulence_of (node_of node.entry))) 0 }
{
    let fields = convert_turbulence(node)?;
    Ok(Some(Kind::Turbulence(fields)))
}

// What a node of the sheet gives, by its tag. A match and no table of functions: they take the node, its children and the scale as each needs them. A node's children
// stand beside it, as a run whose fields the clauses name: `Makes` says where the run ends, which a child bounds by 512. From a number in `SvgNode` they would be `children_of bytes number`,
// their end a count of its own in each clause, and every node would hold a number for the four elements that read children.
#[tactic(auto, unfolding(crate::specs::Elements::by_tag, crate::specs::Elements::kind_of))]
pub fn kind_of(node: SvgNode<'_>, children: NodeRun<'_>, frame: Frame) -> Made
    requires { node.bytes ≡ children.bytes }
    ensures { Makes node.entry.bytes.now result (kind_of frame (node_of node.entry) (nodes_of children.entry)) (children.entry.first + children.entry.count) }
{
    let size = scale(frame);
    match node.tag_name() {
        eid::FE_DROP_SHADOW => make_drop_shadow(node, size),
        eid::FE_GAUSSIAN_BLUR => make_gaussian_blur(node, size),
        eid::FE_OFFSET => make_offset(node, size),
        eid::FE_BLEND => make_blend(node),
        eid::FE_FLOOD => make_flood(node),
        eid::FE_COMPOSITE => make_composite(node),
        eid::FE_MERGE => make_merge(children),
        eid::FE_TILE => make_tile(node),
        eid::FE_COMPONENT_TRANSFER => make_component_transfer(node, children),
        eid::FE_COLOR_MATRIX => make_color_matrix(node),
        eid::FE_CONVOLVE_MATRIX => make_convolve_matrix(node),
        eid::FE_MORPHOLOGY => make_morphology(node, size),
        eid::FE_DISPLACEMENT_MAP => make_displacement_map(node, size),
        eid::FE_TURBULENCE => make_turbulence(node),
        eid::FE_DIFFUSE_LIGHTING => make_diffuse_lighting(node, children),
        eid::FE_SPECULAR_LIGHTING => make_specular_lighting(node, children),
        _ => Ok(None),
    }
}
