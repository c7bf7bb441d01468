//! Bytes that are looked through for a declaration.
ghost use Rattle.std.specs.Prelude.{◌≡◌, ◌≤◌, length, take, drop};
ghost use Rattle.std.specs.List.{prefix_len};
ghost use Rattle.html_encodings.specs.Scanning.{has, front, past, trimmed, begins};

/// Bytes that are passed over together.
#[derive(Clone, Copy, Debug)]
pub(crate) enum Class {
    /// ASCII white space.
    Space,
    /// White space and `/`.
    SpaceOrSlash,
    /// What an attribute's name may have: no white space, `/`, `=` or `>`.
    Name,
    /// What a value without quotes may have, and a tag's name: no white space or `>`.
    Value,
    /// What an encoding's name may have in a `content`: no white space or `;`.
    Content,
    /// Spaces and what stands before them in ASCII.
    Control,
    /// All but one byte.
    Not(u8),
}

impl Class {
    ghost use Rattle.html_encodings.specs.Scanning.{has};

    pub(crate) fn has(self, byte: u8) -> bool
        ensures { result ≡ has self byte }
    {
        match self {
            Class::Space => byte.is_ascii_whitespace(),
            Class::SpaceOrSlash => byte.is_ascii_whitespace() || byte == b'/',
            Class::Name => !(byte.is_ascii_whitespace()
                || byte == b'/'
                || byte == b'='
                || byte == b'>'),
            Class::Value => !(byte.is_ascii_whitespace() || byte == b'>'),
            Class::Content => !(byte.is_ascii_whitespace() || byte == b';'),
            Class::Control => byte <= 0x20,
            Class::Not(one) => byte != one,
        }
    }
}

/// So many bytes in front, or all if there are fewer.
pub(crate) fn before(bytes: &[u8], count: usize) -> &[u8]
    ensures { result.now ≡ take count bytes.now }
{
    if count < bytes.len() {
        &bytes[..count]
    } else {
        bytes
    }
}

/// What follows so many bytes.
pub(crate) fn after(bytes: &[u8], count: usize) -> &[u8]
    ensures { result.now ≡ drop count bytes.now }
{
    if count < bytes.len() {
        &bytes[count..]
    } else {
        &[]
    }
}

/// How many bytes of a class stand in front.
pub(crate) fn front_len(bytes: &[u8], class: Class) -> usize
    ensures value { result ≡ prefix_len (has class) bytes.now }
    ensures within { result ≤ length bytes.now }
{
    for (i, byte) in bytes.iter().enumerate() {
        if !class.has(*byte) {
            return i;
        }
    }
    bytes.len()
}

/// The bytes of a class that stand in front.
#[tactic(auto, unfolding(crate::specs::Scanning::front))]
pub(crate) fn front(bytes: &[u8], class: Class) -> &[u8]
    ensures { result.now ≡ front class bytes.now }
{
    &bytes[..front_len(bytes, class)]
}

/// What follows the bytes of a class that stand in front.
#[tactic(auto, unfolding(crate::specs::Scanning::past))]
pub(crate) fn past(bytes: &[u8], class: Class) -> &[u8]
    ensures { result.now ≡ past class bytes.now }
{
    &bytes[front_len(bytes, class)..]
}

/// Bytes without the white space at both ends.
#[tactic(auto, unfolding(crate::specs::Scanning::trimmed))]
pub(crate) fn trimmed(bytes: &[u8]) -> &[u8]
    ensures { result.now ≡ trimmed bytes.now }
{
    let rest = past(bytes, Class::Space);
    let mut count = rest.len();
    while count > 0 && Class::Space.has(rest[count - 1]) {
        count -= 1;
    }
    &rest[..count]
}

/// Whether a word in small letters stands in front, in letters of any case.
pub(crate) fn begins(bytes: &[u8], word: &[u8]) -> bool
    ensures { result ≡ begins word.now bytes.now }
{
    let mut rest = bytes;
    for letter in word {
        let Some((byte, others)) = rest.split_first() else {
            return false;
        };
        if byte.to_ascii_lowercase() != *letter {
            return false;
        }
        rest = others;
    }
    true
}
