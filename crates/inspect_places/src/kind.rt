// The kinds of tokens that a message names.

ghost use Rattle.std.specs.Prelude.{◌≡◌};
ghost use Rattle.inspect_places.specs.Stands as spec;

use sql_tokens::Keyword;

/// A kind of token, or the end of a statement.
#[derive(Clone, Copy, Debug, PartialEq, Eq)]
pub enum Kind {
    /// A reserved word.
    Key(Keyword),
    /// `(`
    Open,
    /// `)`
    Close,
    /// `,`
    Comma,
    /// `*`
    Star,
    /// `-`
    Minus,
    /// `=`, `<>`, `!=`, `<`, `<=`, `>` or `>=`
    Comparison,
    /// The name of a column or of the table, quoted or not.
    Name,
    /// Digits.
    Number,
    /// Digits, a point, digits.
    Decimal,
    /// A text in single quotes.
    Text,
    /// No token: the end of the statement.
    End,
}

/// Each kind once, in the order in which a message lists them.
pub const KINDS: [Kind; 29] = [
    Kind::Name,
    Kind::Key(Keyword::Select),
    Kind::Key(Keyword::From),
    Kind::Key(Keyword::Where),
    Kind::Key(Keyword::Group),
    Kind::Key(Keyword::Order),
    Kind::Key(Keyword::By),
    Kind::Key(Keyword::Limit),
    Kind::Key(Keyword::Count),
    Kind::Key(Keyword::Sum),
    Kind::Key(Keyword::Min),
    Kind::Key(Keyword::Max),
    Kind::Key(Keyword::And),
    Kind::Key(Keyword::Or),
    Kind::Key(Keyword::Is),
    Kind::Key(Keyword::Not),
    Kind::Key(Keyword::Null),
    Kind::Key(Keyword::Asc),
    Kind::Key(Keyword::Desc),
    Kind::Comparison,
    Kind::Number,
    Kind::Decimal,
    Kind::Text,
    Kind::Minus,
    Kind::Star,
    Kind::Open,
    Kind::Close,
    Kind::Comma,
    Kind::End,
];

impl Kind {
    /// The kind in the words of a message: `FROM`, `','`, `a name`, `the end`.
    pub fn words(self) -> &'static [u8]
        ensures { result.now ≡ spec.plain_text self }
    {
        match self {
            Kind::Key(keyword) => keyword.spelling(),
            Kind::Open => b"'('",
            Kind::Close => b"')'",
            Kind::Comma => b"','",
            Kind::Star => b"'*'",
            Kind::Minus => b"'-'",
            Kind::Comparison => b"a comparison",
            Kind::Name => b"a name",
            Kind::Number => b"a number",
            Kind::Decimal => b"a decimal",
            Kind::Text => b"a text",
            Kind::End => b"the end",
        }
    }
}
