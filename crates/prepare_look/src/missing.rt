// Marks for missing values.
ghost use Rattle.std.specs.Prelude.{◌≡◌};
ghost use Rattle.std.specs.Str.{bytes_eq};
ghost use Rattle.prepare_look.specs.Missing as spec;

/// Whether the field is a mark for a missing value that is known without being asked for.
pub fn is_missing(field: &[u8]) -> bool
    ensures { result ≡ spec.is_missing field.now }
{
    is_signs(field) || is_letters(field) || is_word(field)
}

fn is(field: &[u8], mark: &str) -> bool
    ensures { result ≡ bytes_eq field.now mark.now }
{
    field == mark.as_bytes()
}

fn is_signs(field: &[u8]) -> bool
    ensures { result ≡ spec.is_signs field.now }
{
    is(field, "-") || is(field, "--") || is(field, ".") || is(field, "?") || is(field, "#N/A")
}

fn is_letters(field: &[u8]) -> bool
    ensures { result ≡ spec.is_letters field.now }
{
    is(field, "NA") || is(field, "N/A") || is(field, "n/a") || is(field, "NaN") || is(field, "nan")
}

fn is_word(field: &[u8]) -> bool
    ensures { result ≡ spec.is_word field.now }
{
    is(field, "NULL") || is(field, "null") || is(field, "None") || is(field, "none")
}
