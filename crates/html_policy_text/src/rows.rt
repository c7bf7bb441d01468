//! Worked rows: what the definitions give for each is computed by the check.
ghost use Rattle.html_policy_text.specs.Rows.{ArePolicyRows};

/// Texts of policies, and what they say.
pub fn policy_rows()
    ensures { ArePolicyRows }
{}
