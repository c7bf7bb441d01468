//! Whose rules of tree construction hold.

/// The rules of tree construction: html5ever's, or the HTML Standard's of today, which browsers follow. They differ in a few rows and sets.
#[derive(Clone, Copy, Debug, PartialEq, Eq)]
pub enum Rules {
    /// html5ever's.
    Html5ever,
    /// The HTML Standard's.
    Standard,
}
