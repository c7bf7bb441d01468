//! Laws over the definitions.
ghost use Rattle.html_policy_text.specs.Bounded.{AreBoundedRead};
ghost use Rattle.html_policy_text.specs.Written.{AreWrittenRead};

/// What is read of a policy that was written: the same rules, of each policy that can be written.
pub fn written_policies_are_read()
    ensures { AreWrittenRead }
{}

/// What is read of a policy and its bounds that were written: the same, of each policy that can be written.
pub fn written_bounds_are_read()
    ensures { AreBoundedRead }
{}
