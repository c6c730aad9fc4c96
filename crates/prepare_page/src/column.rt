// What the fields of a column are, taken together.
ghost use Rattle.std.specs.Prelude.{◌≡◌, ◌≤◌, ◌&&◌, not};
ghost use Rattle.std.specs.List.{list_any};
ghost use Rattle.prepare_look.specs.Lines.{one_if};
ghost use Rattle.prepare_page.specs.Columns.{count_columns, has, is_of, some_column};

use prepare_look::{Kind, Survey};

/// Kinds of which a column may have fields, and kinds of which it may have none.
#[derive(Clone, Copy)]
pub(crate) struct Sort<'a> {
    /// Some field is of one of these.
    pub some: &'a [Kind],
    /// No field is of one of these.
    pub none: &'a [Kind],
}

/// Whether some field of a column is of one of these kinds.
pub(crate) fn has(survey: &Survey, column: usize, kinds: &[Kind]) -> bool
    ensures { result ≡ has survey.now column kinds.now }
{
    for i in 0..kinds.len() {
        if survey.seen(column, kinds[i]).count > 0 {
            return true;
        }
    }
    false
}

/// Whether a column has fields of some of these kinds, and of none of the others.
pub(crate) fn is_of(survey: &Survey, column: usize, sort: &Sort<'_>) -> bool
    ensures { result ≡ is_of survey.now column sort.now.some.now sort.now.none.now }
{
    if has(survey, column, sort.none) {
        return false;
    }
    has(survey, column, sort.some)
}

/// Whether there is such a column.
pub(crate) fn some_column(survey: &Survey, sort: &Sort<'_>) -> bool
    ensures { result ≡ some_column survey.now sort.now.some.now sort.now.none.now survey.now.width }
{
    for column in 0..survey.width {
        if is_of(survey, column, sort) {
            return true;
        }
    }
    false
}

// One where it holds.
fn one_if(holds: bool) -> usize
    ensures value { result ≡ one_if holds }
    ensures low { result ≤ 1 }
{
    if holds {
        return 1;
    }
    0
}

/// How many columns are such.
pub(crate) fn count_columns(survey: &Survey, sort: &Sort<'_>) -> usize
    ensures value { result ≡ count_columns survey.now sort.now.some.now sort.now.none.now survey.now.width }
    ensures low { result ≤ survey.now.width }
{
    let mut count = 0;
    for column in 0..survey.width {
        count += one_if(is_of(survey, column, sort));
    }
    count
}
