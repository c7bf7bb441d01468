//! The rows of a table's text.
ghost use Rattle.std.specs.Prelude.{◌≡◌, ◌<◌, Ok, option_map, IfOk, IfErr};
ghost use Rattle.html_input.specs.TableFile.{cut_at, row_of, rows_of, value_of, values_of};
ghost use Rattle.html_input.specs.TableFault.{IsLineFault};

use crate::table::TableFileFault;
use html_references::ReferenceRow;
use std::alloc::{AllocError, Global};

/// How many digits a value has at most.
const DIGITS: usize = 6;

/// What stands before the first such character of ASCII, and what stands after it; nothing where there is none.
fn cut_at(text: &str, mark: char) -> Option<(&str, &str)>
    requires { mark < 128 }
    ensures { option_map (λ parts. (parts.0.now, parts.1.now)) result ≡ cut_at mark text.now }
{
    text.split_once(mark)
}

/// The number that one to six hexadecimal digits stand for.
fn value_of(digits: &str) -> Option<u32>
    ensures { result ≡ value_of digits.now }
{
    let digits = digits.as_bytes();
    if digits.is_empty() || digits.len() > DIGITS {
        return None;
    }
    let mut value = 0;
    for digit in digits {
        value = value * 16 + char::from(*digit).to_digit(16)?;
    }
    Some(value)
}

/// One value, or two with a space between.
fn values_of(text: &str) -> Option<(u32, Option<u32>)>
    ensures { result ≡ values_of text.now }
{
    match cut_at(text, ' ') {
        None => Some((value_of(text)?, None)),
        Some((first, second)) => Some((value_of(first)?, Some(value_of(second)?))),
    }
}

/// The row of a line, if it is a name and its values with a space between.
fn row_of(alloc: Global, line: &str) -> Result<Option<ReferenceRow>, AllocError>
    ensures { IfOk result (λ row. row ≡ row_of line.now) }
{
    let Some((name, values)) = cut_at(line, ' ') else {
        return Ok(None);
    };
    if name.is_empty() {
        return Ok(None);
    }
    let Some((first, second)) = values_of(values) else {
        return Ok(None);
    };
    let name = String::from_str(alloc, name)?;
    Ok(Some(ReferenceRow::new(name, first, second)))
}

/// The rows of a text, a line for each.
pub(crate) fn rows_of(alloc: Global, text: &str) -> Result<Vec<ReferenceRow>, TableFileFault>
    ensures ok { IfOk result (λ rows. rows_of text.now ≡ Ok rows.items) }
    ensures err { IfErr result (IsLineFault text.now) }
{
    let mut rows = Vec::new(alloc);
    for line in text.lines() {
        let Some(row) = row_of(alloc, line)? else {
            return Err(TableFileFault::BadLine(rows.len() as u64 + 1));
        };
        rows.push(row)?;
    }
    Ok(rows)
}
