// What holds of every text.
ghost use Rattle.prepare_blanks.specs.Quotes.{AreKept};
ghost use Rattle.prepare_blanks.specs.Words.{AreWords};

/// What `prepare_text` reads of a text that `with_tabs` made are the words of the text, line by line, where no quote
/// stands in it.
pub fn lines_are_read_word_by_word()
    ensures { AreWords }
{}

/// A word in quotes stays as it is, with the blanks and the line ends in it.
pub fn words_in_quotes_stay()
    ensures { AreKept }
{}
