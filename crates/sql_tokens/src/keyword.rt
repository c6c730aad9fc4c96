// The reserved words.

ghost use Rattle.std.specs.Prelude.{◌≡◌};
ghost use Rattle.std.specs.Str.{str_eq_ignore_ascii_case};
ghost use Rattle.sql_tokens.specs.Keywords as spec;

/// A reserved word.
#[derive(Clone, Copy, Debug, PartialEq, Eq)]
pub enum Keyword {
    Select,
    From,
    Where,
    Group,
    By,
    Count,
    Sum,
    Min,
    Max,
    And,
    Or,
    Not,
    Is,
    Null,
    Order,
    Limit,
    Asc,
    Desc,
}

const KEYWORDS: [Keyword; 18] = [
    Keyword::Select,
    Keyword::From,
    Keyword::Where,
    Keyword::Group,
    Keyword::By,
    Keyword::Count,
    Keyword::Sum,
    Keyword::Min,
    Keyword::Max,
    Keyword::And,
    Keyword::Or,
    Keyword::Not,
    Keyword::Is,
    Keyword::Null,
    Keyword::Order,
    Keyword::Limit,
    Keyword::Asc,
    Keyword::Desc,
];

impl Keyword {
    /// The word in capital letters.
    pub fn spelling(self) -> &'static [u8]
        ensures { result.now ≡ spec.spelling self }
    {
        match self {
            Keyword::Select => b"SELECT",
            Keyword::From => b"FROM",
            Keyword::Where => b"WHERE",
            Keyword::Group => b"GROUP",
            Keyword::By => b"BY",
            Keyword::Count => b"COUNT",
            Keyword::Sum => b"SUM",
            Keyword::Min => b"MIN",
            Keyword::Max => b"MAX",
            Keyword::And => b"AND",
            Keyword::Or => b"OR",
            Keyword::Not => b"NOT",
            Keyword::Is => b"IS",
            Keyword::Null => b"NULL",
            Keyword::Order => b"ORDER",
            Keyword::Limit => b"LIMIT",
            Keyword::Asc => b"ASC",
            Keyword::Desc => b"DESC",
        }
    }
}

fn is_same_word(a: &[u8], b: &[u8]) -> bool
    ensures { result ≡ str_eq_ignore_ascii_case a.now b.now }
{
    a.eq_ignore_ascii_case(b)
}

fn find_in(mut table: &[Keyword], word: &[u8]) -> Option<Keyword>
    ensures { result ≡ spec.find_in table.entry.now word.now }
{
    while let [keyword, rest @ ..] = table {
        if is_same_word(keyword.spelling(), word) {
            return Some(*keyword);
        }
        table = rest;
    }
    None
}

/// The reserved word that `word` is, capital and small letters alike, if it is one. It takes no memory.
pub fn keyword_of(word: &[u8]) -> Option<Keyword>
    ensures { result ≡ spec.keyword_of word.now }
{
    find_in(&KEYWORDS, word)
}
