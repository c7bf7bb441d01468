//! Tables of named character references (HTML Standard, section 13.5).
ghost use Rattle.std.specs.Prelude.{◌≡◌, ◌≢◌, ◌++◌, ◌∷◌, [], None, Some, true, IfOk, IfErr, IfSome, OnOk, IsTrue};
ghost use Rattle.std.specs.Option.{option_copied};
ghost use Rattle.std.specs.Str.{chars};
ghost use Rattle.markup.specs.Plain.{is_plain};
ghost use Rattle.html_references.specs.Order.{IsTable};
ghost use Rattle.html_references.specs.References.{IsCheckedTable, IsFirstFault, MatchesLongest, fault_of, five_rows, goes_on};
ghost use Rattle.html_references.specs.References.{is_front, longest, row_of};
ghost use Rattle.html_tokens.specs.declared.table.TableFault.TheVariants.{Memory};

use hints::Hints;
pub use html_tokens::table::{ReferenceRow, TableFault};
use std::alloc::{AllocError, Global};
use std::marker::Model;

mod arranging;
mod check;
mod hints;
mod order;

// The row of a name of ASCII alone, which stands for one character.
fn make_row(alloc: Global, name: &str, value: u32) -> Result<ReferenceRow, AllocError>
    requires { IsTrue (is_plain name.now) }
    ensures { IfOk result (λ row. row ≡ row_of name.now value) }
{
    Ok(ReferenceRow::new(String::from_str(alloc, name)?, value, None))
}

// Puts the row of a name of ASCII alone after others.
fn push_row(
    alloc: Global,
    rows: &mut Vec<ReferenceRow>,
    name: &str,
    value: u32,
) -> Result<(), TableFault>
    requires { IsTrue (is_plain name.now) }
    ensures ok { OnOk result (rows.new.items ≡ rows.old.items ++ row_of name.now value ∷ []) }
    ensures fault { IfErr result (λ fault. fault ≡ Memory) }
{
    rows.push(make_row(alloc, name, value)?)?;
    Ok(())
}

// Puts the rows of the five names that a written text needs after others.
fn push_five(alloc: Global, rows: &mut Vec<ReferenceRow>) -> Result<(), TableFault>
    ensures ok { OnOk result (rows.new.items ≡ rows.old.items ++ five_rows) }
    ensures fault { IfErr result (λ fault. fault ≡ Memory) }
{
    push_row(alloc, rows, "amp;", 0x26)?;
    push_row(alloc, rows, "lt;", 0x3C)?;
    push_row(alloc, rows, "gt;", 0x3E)?;
    push_row(alloc, rows, "quot;", 0x22)?;
    push_row(alloc, rows, "nbsp;", 0xA0)
}

// Rows of their own with the same names and values.
fn copy_rows(alloc: Global, rows: &[ReferenceRow]) -> Result<Vec<ReferenceRow>, TableFault>
    ensures ok { IfOk result (λ copied. copied.items ≡ rows.now) }
    ensures fault { IfErr result (λ fault. fault ≡ Memory) }
{
    let mut copied = Vec::with_capacity(alloc, rows.len())?;
    for row in rows {
        copied.push(row.copy(alloc)?)?;
    }
    Ok(copied)
}

// The places of rows in the order of their names, or else what is wrong with the first faulty row.
fn order_of(alloc: Global, rows: &[ReferenceRow]) -> Result<Vec<usize>, TableFault>
    ensures ok { IfOk result (λ order. IsTable rows.now order.items) }
    ensures fault { IfErr result (λ fault. fault ≢ Memory → fault_of rows.now ≡ Some fault) }
{
    let good = check::good_front(rows);
    let order = arranging::arranged(alloc, &rows[..good])?;
    match arranging::first_repeat(&rows[..good], &order) {
        Some(place) => Err(TableFault::Duplicate(place as u64 + 1)),
        None if good < rows.len() => Err(check::own_fault(&rows[good], good as u64 + 1)),
        None => Ok(order),
    }
}

/// A checked table of named character references. A contract sees the list of its rows, as they were handed in.
///
/// Names are letters and digits of ASCII, one at least, with `;` or nothing after them, and all distinct; values are numbers of
/// characters, and not 0. A table may have no row.
#[derive(Debug, Drop)]
pub struct References {
    rows: Vec<ReferenceRow>,
    // The places of the rows in the order of their names.
    order: Vec<usize>,
    // Where rows may stand by their names, to be tried before a search.
    hints: Hints,
}

impl Model for References {
    ghost use Rattle.std.specs.Prelude.{List};
    ghost use Rattle.html_tokens.specs.declared.table.ReferenceRow.{ReferenceRow};
    ghost use Rattle.html_references.specs.Order.{IsTable};

    ghost Value = { List ReferenceRow };

    ghost view = { λ t. t.rows.items };

    ghost invariant = { λ t. IsTable t.rows.items t.order.items };
}

impl References {
    /// The table of the given rows, which keeps their memory; or else what is wrong with the first faulty one. In a row a bad
    /// name is told before a bad value, and that before a name that an earlier row has. Memory may run out for any rows.
    pub fn new(alloc: Global, rows: Vec<ReferenceRow>) -> Result<References, TableFault>
        ensures ok { IfOk result (λ table. table ≡ rows.items) }
        ensures checked { OnOk result (fault_of rows.items ≡ None) }
        ensures fault { IfErr result (λ fault. fault ≢ Memory → fault_of rows.items ≡ Some fault) }

        // The same in terms of the whole table: it is checked, or the fault is that of its first faulty row.
        ensures table { OnOk result (IsCheckedTable rows.items) }
        ensures first { IfErr result (λ fault. fault ≢ Memory → IsFirstFault rows.items fault) }
    {
        let order = order_of(alloc, &rows)?;
        let hints = Hints::new(alloc, &rows)?;
        Ok(References { rows, order, hints })
    }

    /// The table of the five names that a written text needs: `amp;`, `lt;`, `gt;`, `quot;` and `nbsp;`.
    pub fn five(alloc: Global) -> Result<References, TableFault>
        ensures ok { IfOk result (λ table. table ≡ five_rows) }
        ensures fault { IfErr result (λ fault. fault ≡ Memory) }
    {
        let mut rows = Vec::with_capacity(alloc, 5)?;
        push_five(alloc, &mut rows)?;
        References::new(alloc, rows)
    }

    /// A table of its own with the same rows.
    pub fn copy(&self, alloc: Global) -> Result<References, TableFault>
        ensures ok { IfOk result (λ copied. copied ≡ self.now) }
        ensures fault { IfErr result (λ fault. fault ≡ Memory) }
    {
        let rows = copy_rows(alloc, &self.rows)?;
        let order = Vec::from_slice(alloc, &self.order)?;
        let hints = self.hints.copy(alloc)?;
        Ok(References { rows, order, hints })
    }

    /// The rows, lent, as they were handed in.
    #[tactic(auto, using(crate::proofs::TableLaws::checked_from_fault_of))]
    pub fn rows(&self) -> &[ReferenceRow]
        ensures rows { result.now ≡ self.now }
        ensures checked { fault_of self.now ≡ None }
        ensures table { IsCheckedTable self.now }
    {
        self.rows.as_slice()
    }

    /// Whether some name goes on after what is held: it begins with the characters held, and has more (HTML Standard, section 13.2.5.73).
    pub fn goes_on(&self, held: &str) -> bool
        ensures { result ≡ goes_on self.now (chars held.now) }
    {
        order::goes_on(&self.rows, &self.order, held.as_bytes())
    }

    /// Whether some name begins with these characters, be they all of it (HTML Standard, section 13.2.5.73).
    pub fn is_front(&self, held: &str) -> bool
        ensures { result ≡ is_front self.now (chars held.now) }
    {
        order::is_front(&self.rows, &self.order, &self.hints, held.as_bytes())
    }

    /// The row of this name, if the table has it.
    pub fn named(&self, name: &str) -> Option<&ReferenceRow>
        ensures row { IfSome result (λ row. longest self.now (chars name.now) ≡ Some row.now) }
        ensures name { IfSome result (λ row. row.now.name ≡ chars name.now) }
        ensures front { IfSome result (λ row. is_front self.now (chars name.now) ≡ true) }
        ensures longest { IfSome result (λ row. MatchesLongest self.now (chars name.now) (Some row.now)) }
    {
        match order::find_hinted(&self.rows, &self.order, &self.hints, name.as_bytes()) {
            None => None,
            Some(place) => Some(&self.rows[place]),
        }
    }

    /// The row with the longest name that a text begins with (HTML Standard, section 13.2.5.73).
    pub fn longest(&self, text: &str) -> Option<&ReferenceRow>
        ensures row { option_copied result ≡ longest self.now (chars text.now) }
        ensures longest { MatchesLongest self.now (chars text.now) (option_copied result) }
    {
        match order::longest(&self.rows, &self.order, &self.hints, text.as_bytes()) {
            None => None,
            Some(place) => Some(&self.rows[place]),
        }
    }
}
