//! A page, or a part of one, as Markdown.
ghost use Rattle.std.specs.Prelude.{◌≡◌, IfErr};
ghost use Rattle.markup.specs.declared.fault.ParseFault.TheVariants.{Memory};

use crate::elements::{Role, role_of};
use crate::survey::shapes_of;
use crate::tables::{NO_ROWS, Shape};
use crate::walk::Frame;
use crate::writer::Writer;
use html_forest::{Forest, NodeId};
use html_nodes::nodes_below;
use markup::ParseFault;
use std::alloc::{AllocError, Global};

/// The tables that come next, by what was seen of them.
#[derive(Drop)]
struct Tables {
    shapes: Vec<Shape>,
    next: usize,
}

impl Tables {
    /// The table that comes next, if the node is one that is written.
    fn shape_for(&mut self, role: Role, is_hidden: bool) -> Shape {
        if is_hidden || role != Role::Table {
            return NO_ROWS;
        }
        let place = self.next;
        self.next = place.saturating_add(1);
        match self.shapes.get(place) {
            Some(shape) => *shape,
            None => NO_ROWS,
        }
    }
}

/// Ends the elements that a node with that parent is not in.
fn leave_to(
    writer: &mut Writer,
    forest: &Forest,
    frames: &mut Vec<Frame>,
    parent: Option<NodeId>,
) -> Result<(), AllocError> {
    while let Some(frame) = frames.last().copied() {
        if Some(frame.id) == parent {
            break;
        }
        let _ = frames.pop();
        writer.leave(forest, frame)?;
    }
    Ok(())
}

/// Takes a node.
fn take(
    writer: &mut Writer,
    forest: &Forest,
    frames: &mut Vec<Frame>,
    tables: &mut Tables,
    id: NodeId,
) -> Result<(), AllocError> {
    let is_hidden = match frames.last() {
        Some(frame) => frame.is_hidden,
        None => false,
    };
    let role = role_of(forest, id);
    let shape = tables.shape_for(role, is_hidden);
    frames.push(writer.take(forest, id, role, is_hidden, shape)?)?;
    Ok(())
}

/// What a node is in Markdown.
fn written(alloc: Global, forest: &Forest, top: NodeId) -> Result<String, AllocError> {
    let mut tables = Tables {
        shapes: shapes_of(alloc, forest, top)?,
        next: 0,
    };
    let mut writer = Writer::new(alloc);
    let mut frames = Vec::new(alloc);
    take(&mut writer, forest, &mut frames, &mut tables, top)?;
    for id in nodes_below(forest, top) {
        leave_to(&mut writer, forest, &mut frames, forest.parent(id))?;
        take(&mut writer, forest, &mut frames, &mut tables, id)?;
    }
    leave_to(&mut writer, forest, &mut frames, None)?;
    writer.end_line(forest)?;
    let Writer { output, .. } = writer;
    output.finish()
}

/// A node and what is in it as Markdown.
pub fn markdown(alloc: Global, forest: &Forest, id: NodeId) -> Result<String, ParseFault>
    ensures fault { IfErr result (λ fault. fault ≡ Memory) }
{
    match written(alloc, forest, id) {
        Ok(text) => Ok(text),
        Err(_) => Err(ParseFault::Memory),
    }
}
