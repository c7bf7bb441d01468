//! A walk of a node and of what stands below it.
ghost use Rattle.std.specs.Prelude.{◌≡◌, ◌∷◌, ◌^◌, ◌<◌, ℕ, List, [], Some, true};
ghost use Rattle.markup.specs.Forest.{IsForest, node_count};
ghost use Rattle.html_walks.specs.Walk.{is_at, spot_left, steps_left, steps_through};

use html_forest::{Forest, NodeId};
use std::marker::Model;

/// A step of a walk.
#[derive(Clone, Copy, Debug)]
pub enum Step {
    /// A node begins.
    Enter(NodeId),
    /// A node ends; all that stands below it came between.
    Leave(NodeId),
}

/// Where a walk has come.
#[derive(Clone, Copy)]
pub(crate) struct Spot {
    /// The step that comes next.
    pub next: Option<Step>,
    /// How far its node stands below the one that is walked.
    pub depth: usize,
}

/// The steps of a walk, in tree order (DOM Standard, section 1.1): a node begins, then come its children, then it ends. It takes no memory.
/// A contract sees the list of the steps that are left.
#[derive(Drop)]
pub struct Steps<'a> {
    forest: &'a Forest,
    top: NodeId,
    spot: Spot,
}

impl<'a> Model for Steps<'a> {
    ghost use Rattle.std.specs.Prelude.{◌≡◌, List, true};
    ghost use Rattle.html_walks.specs.Walk.{is_at, spot_left};
    ghost use Rattle.html_walks.specs.declared.steps.Step.{Step};

    ghost Value = { List Step };

    ghost view = { λ walk. spot_left walk.forest.now walk.spot };

    ghost invariant = { λ walk. is_at walk.forest.now walk.top walk.spot ≡ true };
}

/// What comes after the beginning of a node.
fn inward(forest: &Forest, top: NodeId, id: NodeId, depth: usize) -> Spot
    requires { is_at forest.now top (record { next = Some (Step.Enter id); depth = depth }) ≡ true }
    ensures at { is_at forest.now top result ≡ true }
    ensures steps { steps_left forest.now depth (Some (Step.Enter id)) ≡ Step.Enter id ∷ spot_left forest.now result }
{
    forest.keeps();
    match forest.first_child(id) {
        Some(child) => Spot {
            next: Some(Step::Enter(child)),
            depth: depth + 1,
        },
        None => Spot {
            next: Some(Step::Leave(id)),
            depth,
        },
    }
}

/// What comes after the end of a node.
fn onward(forest: &Forest, top: NodeId, id: NodeId, depth: usize) -> Spot
    requires { is_at forest.now top (record { next = Some (Step.Leave id); depth = depth }) ≡ true }
    ensures at { is_at forest.now top result ≡ true }
    ensures steps { steps_left forest.now depth (Some (Step.Leave id)) ≡ Step.Leave id ∷ spot_left forest.now result }
{
    forest.keeps();
    if depth == 0 {
        return Spot { next: None, depth };
    }
    if let Some(next) = forest.next_sibling(id) {
        return Spot {
            next: Some(Step::Enter(next)),
            depth,
        };
    }
    match forest.parent(id) {
        Some(parent) => Spot {
            next: Some(Step::Leave(parent)),
            depth: depth - 1,
        },
        None => Spot { next: None, depth },
    }
}

/// What comes after a step.
fn following(forest: &Forest, top: NodeId, step: &Step, depth: usize) -> Spot
    requires { is_at forest.now top (record { next = Some step.now; depth = depth }) ≡ true }
    ensures at { is_at forest.now top result ≡ true }
    ensures steps { steps_left forest.now depth (Some step.now) ≡ step.now ∷ spot_left forest.now result }
{
    match *step {
        Step::Enter(id) => inward(forest, top, id, depth),
        Step::Leave(id) => onward(forest, top, id, depth),
    }
}

impl<'a> Iterator for Steps<'a> {
    ghost use Rattle.std.specs.Iterator.{YieldsFirst, item_count};

    type Item = Step;

    ghost next_gives = { YieldsFirst (λ rest. rest) };

    ghost remaining = { item_count (λ rest. rest) };

    fn next(&mut self) -> Option<Step> {
        match self.spot.next {
            Some(step) => {
                self.spot = following(self.forest, self.top, &step, self.spot.depth);
                Some(step)
            }
            None => None,
        }
    }
}

/// The steps of a node and of what stands below it. What stands in the contents of a template does not stand below the template;
/// `template_contents` of [`Forest`] gives the node that it stands below.
pub fn walk(forest: &Forest, id: NodeId) -> Steps<'_>
    ensures { result ≡ steps_through forest.now id }
{
    Steps {
        forest,
        top: id,
        spot: Spot {
            next: Some(Step::Enter(id)),
            depth: 0,
        },
    }
}
