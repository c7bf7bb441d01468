//! What an input is decoded to.

/// The text of an input, and how many errors were in it, at most `u64::MAX`. Each stands as U+FFFD in the text.
#[derive(Drop)]
pub struct Decoded {
    pub text: String,
    pub errors: u64,
}
