// How the numbers of an export are spelled.
ghost use Rattle.std.specs.Prelude.{◌≡◌};
ghost use Rattle.prepare_page.specs.Advice.{reading_of};
ghost use Rattle.prepare_auto.specs.Advised.{limit_by, spelling_of};

use prepare_numbers::Limit;
use prepare_page::{Look, POWERS, Reading, ZEROS, act_on, reading_of};

/// How the numbers of an export are spelled, as a look at it tells.
#[derive(Clone, Copy)]
pub(crate) struct Spelling {
    pub reading: Reading,
    /// A power of ten stands behind some number in the columns of numbers.
    pub has_powers: bool,
    /// Some number there may have more than nine places, where those past the ninth are zeros.
    pub has_zeros: bool,
}

impl Spelling {
    /// As a look tells.
    pub(crate) fn of(look: &Look) -> Spelling
        ensures value { result ≡ spelling_of look.now }
        ensures reading { result.reading ≡ reading_of look.now.survey }
    {
        let reading = reading_of(&look.survey);
        Spelling {
            reading,
            has_powers: act_on(&look.survey, reading, &POWERS),
            has_zeros: act_on(&look.survey, reading, &ZEROS),
        }
    }
}

/// The limit that is asked for, and without one nine places, to which nothing is rounded, where that has to be.
pub(crate) fn limit_by(asked: Option<Limit>, has_zeros: bool) -> Option<Limit>
    ensures { result ≡ limit_by asked has_zeros }
{
    if asked.is_some() || !has_zeros {
        return asked;
    }
    Some(Limit {
        places: 9,
        rounds: false,
    })
}
