//! What holds of the rows of all modes.
ghost use Rattle.html_rules_laws.specs.WholeTable.{IsEachTokenTaken, IsEachRowReached, IsEachUseEnding};

/// Each mode, and foreign content, has a row for every token in every state.
pub fn each_token_is_taken()
    ensures { IsEachTokenTaken }
{}

/// No row stands after rows that take all that it takes.
pub fn each_row_is_reached()
    ensures { IsEachRowReached }
{}

/// Modes use the rules of others in short chains: with room for more of them nothing changes.
pub fn each_use_ends()
    ensures { IsEachUseEnding }
{}
