//! Worked rows of the definitions: the check computes them.
ghost use Rattle.html_places.specs.Rows.{ArePlacesOfRows, AreOrdersOfRows};

/// The places after some texts, as the rows say.
pub fn place_rows()
    ensures { ArePlacesOfRows }
{}

/// Whether places are before others, as the rows say.
pub fn order_rows()
    ensures { AreOrdersOfRows }
{}
