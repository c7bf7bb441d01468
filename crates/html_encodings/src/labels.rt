//! Labels of encodings.
ghost use Rattle.std.specs.Prelude.{◌≡◌, map};
ghost use Rattle.html_encodings.specs.Labels.{labels, label_encoding};

use crate::names::{Encoding, LABELS};
use crate::scanning::trimmed;

/// The labels, borrowed.
#[tactic(auto, unfolding(crate::specs::Labels::labels))]
fn labels() -> &'static [(&'static str, Encoding)]
    ensures { map (λ row. (row.0.now, row.1)) result.now ≡ labels }
{
    &LABELS
}

/// The encoding of a label, in letters of any case and with white space at its ends (Encoding Standard, section 4.2:
/// "get an encoding").
pub fn encoding_of_label(label: &[u8]) -> Option<Encoding>
    ensures { result ≡ label_encoding label.now }
{
    let word = trimmed(label);
    for (name, encoding) in labels() {
        if name.as_bytes().eq_ignore_ascii_case(word) {
            return Some(*encoding);
        }
    }
    None
}
