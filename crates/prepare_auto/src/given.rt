// Which rules were asked for.
ghost use Rattle.std.specs.Prelude.{◌≡◌, None, Some, if◌then◌else◌};
ghost use Rattle.prepare_auto.specs.Advised.{hint_of};

use prepare_page::Hint;
use prepare_rules::Rules;

/// Which of two rules were asked for, and so aren't guessed. Of the others the value tells it: that there are no names
/// was asked for where the rules say so, and the rules on numbers where these name a column.
#[derive(Clone, Copy, Debug)]
pub struct Given {
    /// The byte between two fields.
    pub delimiter: bool,
    /// How many records are left out.
    pub skip: bool,
}

impl Given {
    // The byte between two fields, where it was asked for.
    fn delimiter_of(self, asked: &Rules<'_>) -> Option<u8>
        ensures { result ≡ (if self.delimiter then Some asked.now.delimiter else None) }
    {
        if self.delimiter {
            return Some(asked.delimiter);
        }
        None
    }

    // How many records are left out, where it was asked for.
    fn skip_of(self, asked: &Rules<'_>) -> Option<u32>
        ensures { result ≡ (if self.skip then Some asked.now.skip else None) }
    {
        if self.skip {
            return Some(asked.skip);
        }
        None
    }

    /// What a look needn't guess.
    pub(crate) fn hint(self, asked: &Rules<'_>) -> Hint
        ensures { result ≡ hint_of self asked.now }
    {
        Hint {
            delimiter: self.delimiter_of(asked),
            quote: asked.quote,
            titles: self.skip_of(asked),
            is_nameless: !asked.has_names,
        }
    }
}
