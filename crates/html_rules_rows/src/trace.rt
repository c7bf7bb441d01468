//! Which rows the tokens of a page meet, computed by the check: the place to look for where a page goes wrong.
ghost use Rattle.html_rules_rows.specs.Trace.{IsTraced};

/// The turns of each token of a page, by mode and row.
pub fn traced_page()
    ensures { IsTraced }
{}
