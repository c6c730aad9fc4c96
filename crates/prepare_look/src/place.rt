// Where a walk over the bytes of an export stands: csv's own states, of which these marks reach six.
ghost use Rattle.std.specs.Prelude.{◌≡◌};
ghost use Rattle.csv.specs.Machine.{ends_at_end, in_field, start_field, start_record, step};
ghost use Rattle.prepare_look.specs.declared.place.Place.TheVariants as place;
ghost use Rattle.prepare_look.specs.Walk.{begins, format_of, is_quoted, opens, state_of};

/// Where a walk stands.
#[derive(Clone, Copy, Debug, PartialEq, Eq)]
pub(crate) enum Place {
    /// Between two records.
    Between,
    /// Behind a carriage return that ended a record.
    AfterReturn,
    /// At the begin of a field that isn't the first one.
    FieldBegin,
    /// In a field.
    InField,
    /// In quotes.
    InQuotes,
    /// Behind the quote that may end them.
    AfterQuote,
}

/// The bytes that mark fields.
#[derive(Clone, Copy, Debug, PartialEq, Eq)]
pub struct Marks {
    pub delimiter: u8,
    pub quote: u8,
}

impl Marks {
    fn in_field(self, byte: u8) -> Place
        ensures { state_of result ≡ (in_field (format_of self) byte).0 }
    {
        if byte == self.delimiter {
            return Place::FieldBegin;
        }
        if byte == b'\r' {
            return Place::AfterReturn;
        }
        if byte == b'\n' {
            return Place::Between;
        }
        Place::InField
    }

    fn start_field(self, byte: u8) -> Place
        ensures { state_of result ≡ (start_field (format_of self) byte).0 }
    {
        if byte == self.quote {
            return Place::InQuotes;
        }
        self.in_field(byte)
    }

    fn start_record(self, byte: u8) -> Place
        ensures { state_of result ≡ (start_record (format_of self) byte).0 }
    {
        if byte == b'\r' || byte == b'\n' {
            return Place::Between;
        }
        self.start_field(byte)
    }

    fn in_quotes(self, byte: u8) -> Place
        ensures { state_of result ≡ (step (format_of self) (state_of place.InQuotes) byte).0 }
    {
        if byte == self.quote {
            return Place::AfterQuote;
        }
        Place::InQuotes
    }

    fn after_quote(self, byte: u8) -> Place
        ensures { state_of result ≡ (step (format_of self) (state_of place.AfterQuote) byte).0 }
    {
        if byte == self.quote {
            return Place::InQuotes;
        }
        self.in_field(byte)
    }

    fn after_return(self, byte: u8) -> Place
        ensures { state_of result ≡ (step (format_of self) (state_of place.AfterReturn) byte).0 }
    {
        if byte == b'\n' {
            return Place::Between;
        }
        self.start_record(byte)
    }
}

impl Place {
    /// The place behind a byte.
    pub(crate) fn after(self, marks: Marks, byte: u8) -> Place
        ensures { state_of result ≡ (step (format_of marks) (state_of self) byte).0 }
    {
        match self {
            Place::Between => marks.start_record(byte),
            Place::AfterReturn => marks.after_return(byte),
            Place::FieldBegin => marks.start_field(byte),
            Place::InField => marks.in_field(byte),
            Place::InQuotes => marks.in_quotes(byte),
            Place::AfterQuote => marks.after_quote(byte),
        }
    }

    /// Whether it is in a record.
    pub(crate) fn is_inside(self) -> bool
        ensures { result ≡ ends_at_end (state_of self) }
    {
        !matches!(self, Place::Between | Place::AfterReturn)
    }

    /// Whether a record begins with the byte between these places.
    pub(crate) fn begins(self, next: Place) -> bool
        ensures { result ≡ begins (state_of self) (state_of next) }
    {
        !self.is_inside() && next.is_inside()
    }

    /// Whether it is in quotes.
    pub(crate) fn is_quoted(self) -> bool
        ensures { result ≡ is_quoted (state_of self) }
    {
        matches!(self, Place::InQuotes)
    }

    /// Whether quotes begin with the byte between these places.
    pub(crate) fn opens(self, next: Place) -> bool
        ensures { result ≡ opens (state_of self) (state_of next) }
    {
        next.is_quoted() && !matches!(self, Place::InQuotes | Place::AfterQuote)
    }
}
