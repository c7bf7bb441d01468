//! What a step of a decoder returns.
ghost use Rattle.std.specs.Prelude.{◌≡◌, [], ◌∷◌, ◌≤◌, length};
ghost use Rattle.html_encodings.specs.Emitted.{items};
ghost use Rattle.html_encodings.specs.Handlers.{code_point, entry_item, error_count};

/// What a handler makes of one byte: at most four characters, where `None` stands for an error.
#[derive(Clone, Copy, Debug)]
pub enum Emitted {
    Nothing,
    One(Option<char>),
    Two(Option<char>, Option<char>),
    Three(Option<char>, Option<char>, Option<char>),
    Four(Option<char>, Option<char>, Option<char>, Option<char>),
}

impl Emitted {
    /// The same after one more in front.
    pub fn after(self, item: Option<char>) -> Emitted
        requires { length (items self) ≤ 3 }
        ensures { items result ≡ item ∷ items self }
    {
        match self {
            Emitted::Nothing => Emitted::One(item),
            Emitted::One(a) => Emitted::Two(item, a),
            Emitted::Two(a, b) => Emitted::Three(item, a, b),
            Emitted::Three(a, b, c) => Emitted::Four(item, a, b, c),
            Emitted::Four(..) => unreachable!(),
        }
    }

    /// How many errors there are in it.
    pub fn errors(self) -> u64
        ensures { result ≡ error_count (items self) }
    {
        match self {
            Emitted::Nothing => 0,
            Emitted::One(a) => error_of(a),
            Emitted::Two(a, b) => error_of(a) + error_of(b),
            Emitted::Three(a, b, c) => error_of(a) + error_of(b) + error_of(c),
            Emitted::Four(a, b, c, d) => error_of(a) + error_of(b) + error_of(c) + error_of(d),
        }
    }
}

/// 1 for an error.
fn error_of(item: Option<char>) -> u64
    ensures { result ≡ error_count (item ∷ []) }
{
    if item.is_none() { 1 } else { 0 }
}

/// A code point as it is emitted. A surrogate is an error.
pub fn code_point(code: u32) -> Option<char>
    ensures { result ≡ code_point code }
{
    char::from_u32(code)
}

/// An entry of an index as it is emitted. 0 stands where the index has nothing.
pub fn entry_item(entry: u16) -> Option<char>
    ensures { result ≡ entry_item entry }
{
    if entry == 0 {
        return None;
    }
    code_point(u32::from(entry))
}
