// Names of rows, which stand first and under no name.
ghost use Rattle.std.specs.Prelude.{◌≡◌};
ghost use Rattle.prepare_page.specs.RowNames.{names_rows};

use crate::look::Look;
use prepare_look::{Failure, Kind, Survey, survey_of};
use std::alloc::Global;

// Whether the rows have names, by what is seen of records of a field more than there are names.
fn names_rows(survey: &Survey) -> bool
    ensures { result ≡ names_rows survey.now }
{
    if survey.records == 0 || survey.short.count > 0 || survey.long.count > 0 {
        return false;
    }
    let last = survey.width.saturating_sub(1);
    survey.seen(last, Kind::Empty).count < survey.records
}

/// What is seen of the records where each has a field more than there are names, and the first names its row, as in
/// files that R writes; none where that isn't so.
pub(crate) fn rows_named(
    alloc: Global,
    text: &[u8],
    look: &Look,
) -> Result<Option<Survey>, Failure> {
    let (names, seen) = (look.first.fields.len(), &look.survey);
    if !look.has_names || names > seen.width || seen.long.count < seen.records {
        return Ok(None);
    }
    let width = names.saturating_add(1);
    let survey = survey_of(alloc, look.marks(), text, look.below, width)?;
    if names_rows(&survey) {
        return Ok(Some(survey));
    }
    Ok(None)
}
