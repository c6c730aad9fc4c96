// Where a walk over a text stands, after csv's own machine.
ghost use Rattle.std.specs.Prelude.{◌≡◌};
ghost use Rattle.csv.specs.Machine.{ends_at_end, in_field, start_field, step};
ghost use Rattle.prepare_text.specs.Walk.{IsStep, format, state_of};

/// The bytes that stand between fields and around them.
#[derive(Clone, Copy, Debug)]
pub struct Marks {
    /// The byte between two fields.
    pub delimiter: u8,
    /// The byte around a field that holds delimiters or line ends; two of them in such a field stand for one.
    pub quote: u8,
}

/// Where a walk stands between two bytes.
#[derive(Clone, Copy)]
pub(crate) enum Place {
    /// Between two records.
    Between,
    /// The same, behind a carriage return.
    AfterCr,
    /// Before a field.
    Before,
    /// In a field.
    Inside,
    /// In a quoted field.
    Quoted,
    /// Behind a quote in a quoted field.
    AfterQuote,
}

/// What is done with a byte.
#[derive(Clone, Copy)]
pub(crate) enum Act {
    /// It is no part of a field.
    Skip,
    /// It joins the field.
    Copy,
    /// It ends the field.
    EndField,
    /// It ends the field and the record.
    EndRecord,
}

impl Place {
    /// Whether the end of the text ends a record here.
    pub(crate) fn is_in_record(self) -> bool
        ensures { result ≡ ends_at_end (state_of self) }
    {
        match self {
            Place::Between | Place::AfterCr => false,
            _ => true,
        }
    }

    /// Where the walk stands behind a byte, and what is done with it.
    pub(crate) fn step(self, marks: Marks, byte: u8) -> (Place, Act)
        ensures { IsStep (step (format marks) (state_of self) byte) result }
    {
        match self {
            Place::Inside => in_field(marks, byte),
            Place::Quoted => {
                if byte == marks.quote {
                    return (Place::AfterQuote, Act::Skip);
                }
                (Place::Quoted, Act::Copy)
            }
            Place::Before => start_field(marks, byte),
            Place::AfterQuote => {
                if byte == marks.quote {
                    return (Place::Quoted, Act::Copy);
                }
                in_field(marks, byte)
            }
            Place::Between | Place::AfterCr => {
                if byte == b'\r' || byte == b'\n' {
                    return (Place::Between, Act::Skip);
                }
                start_field(marks, byte)
            }
        }
    }
}

fn start_field(marks: Marks, byte: u8) -> (Place, Act)
    ensures { IsStep (start_field (format marks) byte) result }
{
    if byte == marks.quote {
        return (Place::Quoted, Act::Skip);
    }
    in_field(marks, byte)
}

fn in_field(marks: Marks, byte: u8) -> (Place, Act)
    ensures { IsStep (in_field (format marks) byte) result }
{
    if byte == marks.delimiter {
        return (Place::Before, Act::EndField);
    }
    if byte == b'\r' {
        return (Place::AfterCr, Act::EndRecord);
    }
    if byte == b'\n' {
        return (Place::Between, Act::EndRecord);
    }
    (Place::Inside, Act::Copy)
}
