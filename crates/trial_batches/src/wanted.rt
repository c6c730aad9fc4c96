// What a query is to be answered.
use batch_run::{Answer, Cause, Taken};
use table_core::Cell;

#[derive(Clone, Copy)]
pub(crate) enum Wanted {
    Rows(&'static [&'static [Cell]]),
    Picked(&'static [&'static [Cell]]),
    Overflow(u32, i128),
    Stopped(Cause),
}

fn are_rows(got: &[Vec<Cell>], wanted: &[&[Cell]]) -> bool {
    got.len() == wanted.len()
        && got
            .iter()
            .zip(wanted)
            .all(|(row, cells)| row.as_slice() == *cells)
}

pub(crate) fn is_wanted(answer: &Answer, wanted: Wanted) -> bool {
    match (answer, wanted) {
        (Answer::Rows(rows), Wanted::Rows(wanted)) => are_rows(rows.as_slice(), wanted),
        (Answer::Picked(rows), Wanted::Picked(wanted)) => are_rows(rows.as_slice(), wanted),
        (Answer::Overflow { item, total }, Wanted::Overflow(wanted, sum)) => {
            *item == wanted && *total == sum
        }
        (Answer::Stopped(why), Wanted::Stopped(cause)) => *why == cause,
        _ => false,
    }
}

// Whether these are all answers.
pub(crate) fn are_wanted(answers: &[Answer], wanted: &[Wanted]) -> bool {
    answers.len() == wanted.len()
        && answers
            .iter()
            .zip(wanted)
            .all(|(answer, one)| is_wanted(answer, *one))
}

// Who took which chunks: a query, a part, a worker, and the chunks in their order.
pub(crate) type Took = (u32, u32, u32, &'static [u32]);

fn is_taken(taken: &Taken, took: Took) -> bool {
    taken.query == took.0
        && taken.part == took.1
        && taken.worker == took.2
        && taken.chunks.as_slice() == took.3
}

pub(crate) fn are_taken(taken: &[Taken], took: &[Took]) -> bool {
    taken.len() == took.len() && taken.iter().zip(took).all(|(one, who)| is_taken(one, *who))
}
