// What is known of an export beforehand.
ghost use Rattle.std.specs.Prelude.{◌≡◌};
ghost use Rattle.prepare_page.specs.Looks.{nothing};

/// What is known of an export beforehand, and so isn't guessed.
#[derive(Clone, Copy, Debug)]
pub struct Hint {
    /// The byte between two fields, where it is known.
    pub delimiter: Option<u8>,
    /// The byte around a field.
    pub quote: u8,
    /// How many records stand above the names, where it is known.
    pub titles: Option<u32>,
    /// It is known that there are no names.
    pub is_nameless: bool,
}

impl Hint {
    /// Nothing is known but that the quote is `"`.
    pub fn nothing() -> Hint
        ensures { result ≡ nothing }
    {
        Hint {
            delimiter: None,
            quote: b'"',
            titles: None,
            is_nameless: false,
        }
    }
}
