// A filter's children: each to its subregion and its kind, and the next child that counts.
#![tactic(auto)]

ghost use Rattle.std.specs.Prelude.{◌≡◌, ◌≤◌, ◌<◌};
ghost use Rattle.svgtree.specs.Parse.{count_of};
ghost use Rattle.svgtree.specs.Means.{children_of};
ghost use Rattle.svgtree.specs.Nodes.{node_of};
ghost use Rattle.subregion.specs.Subregions.{region_of};
ghost use Rattle.elements.specs.Means.{made_is, made_end};
ghost use Rattle.chain.specs.Chain.{kind_step, region_step};
ghost use Rattle.chain.specs.Means.{step_is, step_at, NextChild};

use answer::Refusal;
use child::Child;
use elements::{Made, kind_of};
use fe::color_interpolation::convert_color_interpolation;
use geom::Rect;
use names::aid;
use region::Frame;
use sheet::Sheet;
use subregion::resolve_primitive_region;
use svgtree::SvgNode;
use svgtree::nodes::node_count;
use svgtree::run::NodeRun;

pub mod sheet;

// What a node does to the chain of children, unless it refuses the sheet. No Option: to end the chain is more than to be passed over.
#[derive(Clone, Copy)]
pub enum Step {
    Pass,
    End,
    Count(Child),
}

// A child in its subregion, whatever it made.
#[inline(always)]
fn kind_step(node: SvgNode<'_>, rect: Rect, made: Made) -> Result<Step, Refusal>
    requires { made_end made ≤ 512 }
    ensures { step_is node.entry.bytes.now result ≡ kind_step (node_of node.entry) rect (made_is node.entry.bytes.now made) }
{
    let Some(kind) = made? else {
        return Ok(Step::Pass); // no primitive is made of its tag
    };
    Ok(Step::Count(Child {
        rect,
        kind,
        color_interpolation: convert_color_interpolation(node),
        result: node.attribute(aid::RESULT),
    }))
}

// The region decides before the kind. The kind is worked out first all the same: it is copied later, and need not be waited for then.
// A step is inlined where it is asked for, `kind_of` apart: a node that is no child costs no call, and a step has no frame of its own on the stack while `kind_of`
// runs (docs/SPEED.md).
#[inline(always)]
fn region_step(node: SvgNode<'_>, i: u16, frame: Frame) -> Result<Step, Refusal>
    requires { count_of node.bytes.now ≤ 512 }
    ensures { step_is node.entry.bytes.now result ≡ region_step frame (node_of node.entry) (children_of node.entry.bytes.now i) (region_of frame (node_of node.entry)) }
{
    let made = kind_of(node, NodeRun::children(node.bytes, i), frame);
    match resolve_primitive_region(node, frame) {
        Some(rect) => kind_step(node, rect, made),
        None => Ok(Step::End),
    }
}

// A sheet and a frame stay two parameters: the frame may be another sheet's (`convert_children`), and no law joins them.
#[inline(always)]
#[tactic(auto, unfolding(crate::specs::Chain::step_of))]
pub fn step_of(sheet: Sheet<'_>, i: u16, frame: Frame) -> Result<Step, Refusal>
    requires { i < count_of sheet.bytes.now }
    ensures { step_is sheet.entry.bytes.now result ≡ step_at frame sheet.entry.bytes.now i }
{
    let node = SvgNode::get(sheet.bytes, i);
    if node.depth() == 1 || !node.has_tag() {
        return Ok(Step::Pass);
    }
    region_step(node, i, frame)
}

// The next child that counts, with its node's number, unless the chain ends before one or is refused.
pub fn next_child(
    sheet: Sheet<'_>,
    start: u16,
    frame: Frame,
) -> Result<Option<(u16, Child)>, Refusal>
    requires { start ≤ count_of sheet.bytes.now }
    ensures { NextChild frame sheet.entry.bytes.now start result }
{
    for i in start..node_count(sheet.bytes) {
        match step_of(sheet, i, frame)? {
            Step::Count(child) => return Ok(Some((i, child))),
            Step::End => return Ok(None),
            Step::Pass => {}
        }
    }
    Ok(None)
}
