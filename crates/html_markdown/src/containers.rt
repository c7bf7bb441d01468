//! Quotes and items of lists, in which blocks stand, and what they put before each line (CommonMark, section 5).
ghost use Rattle.std.specs.Prelude.{◌≤◌};

use crate::output::Output;
use std::alloc::AllocError;

/// What a block is in.
#[derive(Clone, Copy)]
pub(crate) enum Marker {
    /// A quote.
    Quote,
    /// An item after this character.
    Bullet(char),
    /// An item after this number and this character.
    Number(u32, char),
}

/// A quote or an item.
#[derive(Clone, Copy)]
pub(crate) struct Container {
    pub marker: Marker,
    /// Whether no line was written in it.
    pub is_fresh: bool,
    /// Whether its first line comes without an empty line before it.
    pub joins: bool,
    /// Whether an empty line was written in it.
    pub is_loose: bool,
}

/// How many digits a number has.
fn digits(number: u32) -> usize
    ensures { result ≤ 9 }
{
    match number {
        0..10 => 1,
        10..100 => 2,
        100..1_000 => 3,
        1_000..10_000 => 4,
        10_000..100_000 => 5,
        100_000..1_000_000 => 6,
        1_000_000..10_000_000 => 7,
        10_000_000..100_000_000 => 8,
        _ => 9,
    }
}

/// How far what stands in it is moved in.
fn width(marker: Marker) -> usize {
    match marker {
        Marker::Quote | Marker::Bullet(_) => 2,
        Marker::Number(number, _) => digits(number) + 2,
    }
}

/// Writes what stands before the first line of what stands in it.
fn push_marker(output: &mut Output, marker: Marker) -> Result<(), AllocError> {
    match marker {
        Marker::Quote => output.push_str("> ", ' '),
        Marker::Bullet(bullet) => {
            output.push(bullet)?;
            output.push(' ')
        }
        Marker::Number(number, delimiter) => {
            output.push_number(number)?;
            output.push(delimiter)?;
            output.push(' ')
        }
    }
}

/// Writes what stands before a line.
fn push_front(output: &mut Output, container: &Container) -> Result<(), AllocError> {
    match container.marker {
        Marker::Quote => output.push_str("> ", ' '),
        marker => {
            if container.is_fresh {
                push_marker(output, marker)
            } else {
                output.push_many(' ', width(marker))
            }
        }
    }
}

/// Writes what stands before a line in all containers.
pub(crate) fn push_prefix(
    output: &mut Output,
    containers: &mut [Container],
) -> Result<(), AllocError> {
    for container in containers.iter() {
        push_front(output, container)?;
    }
    for container in containers.iter_mut() {
        container.is_fresh = false;
    }
    Ok(())
}

/// Writes an empty line in the containers in which a line was written.
pub(crate) fn push_empty_line(
    output: &mut Output,
    containers: &[Container],
) -> Result<(), AllocError> {
    let mut spaces: usize = 0;
    for container in containers {
        if container.is_fresh {
            break;
        }
        match container.marker {
            Marker::Quote => {
                output.push_many(' ', spaces)?;
                output.push('>')?;
                spaces = 1;
            }
            marker => spaces = spaces.saturating_add(width(marker)),
        }
    }
    output.push('\n')
}
