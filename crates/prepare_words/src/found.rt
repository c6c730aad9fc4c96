// What clap found.
ghost use Rattle.std.specs.Prelude.{◌≡◌, option_map};
ghost use Rattle.clap.specs.Matches.{found_of};
ghost use Rattle.clap.specs.Walk.{first_of, rows_of};
ghost use Rattle.prepare_words.specs.Views.{is_set, is_there, texts_given, values_in};

use clap::ArgMatches;

/// The first value of an option or a place.
pub(crate) fn value_in<'a>(found: &ArgMatches<'a>, name: &str) -> Option<&'a str>
    ensures { option_map (λ s. s.now) result ≡ first_of name.now (rows_of (found_of found.now)) }
{
    found.get_str(name)
}

/// The values of an option, one for each time that it stands there, if it does.
pub(crate) fn values_in<'m, 'a>(found: &'m ArgMatches<'a>, name: &str) -> Option<&'m [&'a str]>
    ensures { texts_given result ≡ values_in name.now (rows_of (found_of found.now)) }
{
    found.get_strs(name)
}

/// Whether a flag stands there.
pub(crate) fn is_set(found: &ArgMatches<'_>, name: &str) -> bool
    ensures { result ≡ is_set name.now (rows_of (found_of found.now)) }
{
    match value_in(found, name) {
        Some(value) => value == "true",
        None => false,
    }
}

/// Whether an option with a value stands there.
pub(crate) fn is_there(found: &ArgMatches<'_>, name: &str) -> bool
    ensures { result ≡ is_there name.now (rows_of (found_of found.now)) }
{
    value_in(found, name).is_some()
}
