//! Worked rows of tree construction: what the definitions give for each is computed by the check.
ghost use Rattle.html_rules_rows.specs.RowsOfPages.{ArePageRowsRead};
ghost use Rattle.html_rules_rows.specs.RowsOfBeginnings.{AreBeginningRowsRead};
ghost use Rattle.html_rules_rows.specs.RowsOfHeads.{AreHeadRowsRead};
ghost use Rattle.html_rules_rows.specs.RowsOfBodies.{AreBodyRowsRead};
ghost use Rattle.html_rules_rows.specs.RowsOfFormatting.{AreFormattingRowsRead};
ghost use Rattle.html_rules_rows.specs.RowsOfTables.{AreTableRowsRead};
ghost use Rattle.html_rules_rows.specs.RowsOfTemplates.{AreTemplateRowsRead};
ghost use Rattle.html_rules_rows.specs.RowsOfFramesets.{AreFramesetRowsRead};
ghost use Rattle.html_rules_rows.specs.RowsOfForeign.{AreForeignRowsRead};
ghost use Rattle.html_rules_rows.specs.RowsOfSettings.{AreSettingRowsRead, AreQuirksRowsRead};
ghost use Rattle.html_rules_rows.specs.RowsOfFragments.{AreFragmentRowsRead};
ghost use Rattle.html_rules_rows.specs.RowsOfDoctypes.{AreDoctypeRowsRead};
ghost use Rattle.html_rules_rows.specs.RowsOfEncodings.{AreEncodingRowsRead};
ghost use Rattle.html_rules_rows.specs.RowsOfTokens.{AreTokenRowsRead};
ghost use Rattle.html_rules_rows.specs.RowsOfQuietPages.{AreQuietRowsRead};
ghost use Rattle.html_rules_rows.specs.RowsOfRules.{AreRuledRowsRead};

/// Whole pages, read as the rows say.
pub fn page_rows()
    ensures { ArePageRowsRead }
{}

/// What comes before the head, read as the rows say.
pub fn beginning_rows()
    ensures { AreBeginningRowsRead }
{}

/// The head, read as the rows say.
pub fn head_rows()
    ensures { AreHeadRowsRead }
{}

/// The body, and what follows it, read as the rows say.
pub fn body_rows()
    ensures { AreBodyRowsRead }
{}

/// Formatting elements and the adoption agency, read as the rows say.
pub fn formatting_rows()
    ensures { AreFormattingRowsRead }
{}

/// Tables, read as the rows say.
pub fn table_rows()
    ensures { AreTableRowsRead }
{}

/// Templates, and the modes that are reset, read as the rows say.
pub fn template_rows()
    ensures { AreTemplateRowsRead }
{}

/// Framesets, read as the rows say.
pub fn frameset_rows()
    ensures { AreFramesetRowsRead }
{}

/// Foreign content, read as the rows say.
pub fn foreign_rows()
    ensures { AreForeignRowsRead }
{}

/// Pages without scripting, and pages without their doctype, read as the rows say.
pub fn setting_rows()
    ensures { AreSettingRowsRead }
{}

/// The quirks modes of pages, read as the rows say.
pub fn quirks_rows()
    ensures { AreQuirksRowsRead }
{}

/// Fragments, read as the rows say.
pub fn fragment_rows()
    ensures { AreFragmentRowsRead }
{}

/// Doctypes that are errors, and the quirks modes that doctypes set, read as the rows say.
pub fn doctype_rows()
    ensures { AreDoctypeRowsRead }
{}

/// The encodings that texts name, read as the rows say.
pub fn encoding_rows()
    ensures { AreEncodingRowsRead }
{}

/// Tokens told one by one, and what no text leads to, read as the rows say.
pub fn token_rows()
    ensures { AreTokenRowsRead }
{}

/// Pages that are read quietly, and others, read as the rows say.
pub fn quiet_rows()
    ensures { AreQuietRowsRead }
{}

/// Texts that html5ever's rules and the Standard's read otherwise, read as the rows say.
pub fn ruled_rows()
    ensures { AreRuledRowsRead }
{}
