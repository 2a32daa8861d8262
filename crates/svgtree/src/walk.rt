// The nodes of a run, one after the other as they stand in the sheet.
#![tactic(auto, using(crate::proofs::Following::handles))]

ghost use Rattle.std.specs.Prelude.{◌≡◌};
ghost use Rattle.std.specs.Iterator.{YieldsFirst, item_count};
ghost use Rattle.svgtree.specs.Nodes.{handles_of};

use crate::SvgNode;
use crate::run::NodeRun;
use std::marker::Model;

// The nodes of a run that are left, the first `passed` being behind. An iterator of its own, and not `(0..count).map(..)`: a clause sees it as the list of the nodes that are left, so the
// loops' clauses name no Range and no closure.
#[derive(Drop)]
pub struct Nodes<'a> {
    run: NodeRun<'a>,
    passed: u16,
}

impl<'a> Model for Nodes<'a> {
    ghost use Rattle.std.specs.Prelude.{◌+◌, ◌-◌, ◌≤◌, List};
    ghost use Rattle.svgtree.specs.declared.SvgNode.{SvgNode};
    ghost use Rattle.svgtree.specs.Nodes.{handles_from};

    ghost Value = { List SvgNode };

    ghost view = { λ a. handles_from a.run.bytes (a.run.first + a.passed) (a.run.count - a.passed) };

    ghost invariant = { λ a. a.passed ≤ a.run.count };
}

impl<'a> Nodes<'a> {
    #[inline(always)]
    pub(crate) fn new(run: NodeRun<'a>) -> Nodes<'a>
        ensures { result ≡ handles_of run.entry }
    {
        Nodes { run, passed: 0 }
    }
}

impl<'a> Iterator for Nodes<'a> {
    type Item = SvgNode<'a>;

    ghost next_gives = { YieldsFirst (λ rest. rest) };

    ghost remaining = { item_count (λ rest. rest) };

    #[inline(always)]
    fn next(&mut self) -> Option<SvgNode<'a>> {
        if self.passed == self.run.count {
            return None;
        }
        let node = self.run.get(self.passed);
        self.passed += 1;
        Some(node)
    }
}
