// What the rules make of a field and of a record.
ghost use Rattle.std.specs.Prelude.{◌≡◌, ◌<◌, ◌^◌, ◌-◌, ◌++◌, ◌∷◌, [], IfOk};
ghost use Rattle.csv.specs.Records.{fields_of, partial_of};
ghost use Rattle.prepare_numbers.specs.Values.{digits_in};
ghost use Rattle.prepare_rules.specs.Made.{IsRowMade, bare, bare_change, bare_made};
ghost use Rattle.prepare_rules.specs.Made.{date_change, date_field, fields_told};
ghost use Rattle.prepare_rules.specs.Made.{is_mark, is_taken, mark_change, number_change, number_field, picked_made};
ghost use Rattle.prepare_rules.specs.Made.{row_made, row_told};
ghost use Rattle.prepare_rules.specs.Numbers.{IsFitted, fit_by, text_by};
ghost use Rattle.prepare_text.specs.Source.{record_of};

use crate::cause::Cause;
use crate::change::Change;
use crate::columns::{Pick, Plan};
use crate::failure::Failure;
use crate::field::field_or_none;
use crate::kind::Kind;
use crate::room::Room;
use crate::rules::Rules;
use crate::tally::Tally;
use crate::trimming::trimmed;
use csv::ByteRecord;
use prepare_dates::{date_of, text_of};
use prepare_numbers::{Fit, Form, Limit, Spelling, push_number, push_within, spelling_of};
use std::alloc::AllocError;

/// Makes the record that is written of one that was read below so many names and begins on this line, in memory that is
/// used again, and tells what the rules did up to it; or tells why it is refused.
pub(crate) fn make_row(
    rules: &Rules<'_>,
    plan: &Plan,
    row: &ByteRecord,
    line: u64,
    tally: Tally,
    room: &mut Room,
) -> Result<Result<Tally, Cause>, Failure>
    ensures { IfOk result (λ told. IsRowMade
        (row_made rules.now plan.now.names plan.now.picks.items (fields_of row.now))
        (row_told rules.now plan.now.names plan.now.picks.items (record_of line (fields_of row.now)) tally)
        told (fields_of room.new.made)) }
{
    if !is_taken(rules, plan.names, row.len()) {
        return Ok(Err(Cause::Fields {
            fields: row.len(),
            names: plan.names,
        }));
    }
    let padded = tally.with_pad(row.len() < plan.names, line)?;
    make_fields(rules, plan.picks.as_slice(), row, line, padded, room)
}

// Whether a record with so many fields is taken where there are so many names.
fn is_taken(rules: &Rules<'_>, names: usize, fields: usize) -> bool
    ensures { result ≡ is_taken rules.now names fields }
{
    if fields == names {
        return true;
    }
    rules.pads && fields < names
}

// Makes the fields of these columns.
fn make_fields(
    rules: &Rules<'_>,
    picks: &[Pick],
    row: &ByteRecord,
    line: u64,
    tally: Tally,
    room: &mut Room,
) -> Result<Result<Tally, Cause>, Failure>
    ensures { IfOk result (λ told. IsRowMade
        (picked_made rules.now picks.now (fields_of row.now))
        (fields_told rules.now line picks.now (fields_of row.now) tally)
        told (fields_of room.new.made)) }
{
    room.made.clear();
    let mut told = tally;
    for i in 0..picks.len() {
        let field = field_or_none(row, picks[i].place);
        let bare = bare(rules, field);
        let change = push_bare(rules, picks[i].kind, bare, room)?;
        if let Some(cause) = change.refusal(i + 1) {
            return Ok(Err(cause));
        }
        told = told
            .with_trim(bare.len() < field.len(), line)?
            .with_change(change, line)?;
    }
    Ok(Ok(told))
}

// Puts what becomes of a field with nothing around it at the end, and tells what is changed in it.
fn push_bare(
    rules: &Rules<'_>,
    kind: Kind,
    field: &[u8],
    room: &mut Room,
) -> Result<Change, AllocError>
    requires { partial_of room.old.made ≡ [] }
    ensures field { IfOk result (λ change. fields_of room.new.made
        ≡ fields_of room.old.made ++ (bare_made rules.now kind field.now ∷ [])) }
    ensures clear { IfOk result (λ change. partial_of room.new.made ≡ []) }
    ensures change { IfOk result (λ change. change ≡ bare_change rules.now kind field.now) }
{
    match kind {
        Kind::Texts => {
            room.made.push_field(field)?;
            Ok(Change::Kept)
        }
        Kind::Numbers => push_number_field(rules, field, room),
        Kind::Dates => push_date_field(rules, field, room),
    }
}

// Leaves out a mark for a missing value.
fn push_mark(mark: &[u8], room: &mut Room) -> Result<Change, AllocError>
    requires { partial_of room.old.made ≡ [] }
    ensures field { IfOk result (λ change. fields_of room.new.made ≡ fields_of room.old.made ++ ([] ∷ [])) }
    ensures clear { IfOk result (λ change. partial_of room.new.made ≡ []) }
    ensures change { IfOk result (λ change. change ≡ mark_change mark.now) }
{
    room.made.push_field(&[])?;
    Ok(Change::of_mark(mark))
}

// The same of a field of a column of numbers.
fn push_number_field(rules: &Rules<'_>, field: &[u8], room: &mut Room) -> Result<Change, AllocError>
    requires { partial_of room.old.made ≡ [] }
    ensures field { IfOk result (λ change. fields_of room.new.made
        ≡ fields_of room.old.made ++ (number_field rules.now field.now ∷ [])) }
    ensures clear { IfOk result (λ change. partial_of room.new.made ≡ []) }
    ensures change { IfOk result (λ change. change ≡ number_change rules.now field.now) }
{
    if is_mark(rules.missing, field) {
        return push_mark(field, room);
    }
    let Some(fit) = make_number(rules.limit, rules.form(), field, room)? else {
        room.made.push_field(field)?;
        return Ok(Change::Kept);
    };
    room.made.push_field(room.text.as_slice())?;
    Ok(Change::by(fit, room.text.as_slice() == field))
}

// The same of a field of a column of dates.
fn push_date_field(rules: &Rules<'_>, field: &[u8], room: &mut Room) -> Result<Change, AllocError>
    requires { partial_of room.old.made ≡ [] }
    ensures field { IfOk result (λ change. fields_of room.new.made
        ≡ fields_of room.old.made ++ (date_field rules.now field.now ∷ [])) }
    ensures clear { IfOk result (λ change. partial_of room.new.made ≡ []) }
    ensures change { IfOk result (λ change. change ≡ date_change rules.now field.now) }
{
    if is_mark(rules.missing, field) {
        return push_mark(field, room);
    }
    let Some(date) = date_of(rules.order, field) else {
        room.made.push_field(field)?;
        return Ok(Change::of_no_date(field));
    };
    let text = text_of(date);
    room.made.push_field(&text)?;
    Ok(Change::of_date(text.as_slice() == field))
}

// Makes the number that a field spells in memory that is used again, and tells how it fits the limit; or that the field
// spells none.
#[tactic(auto, using(crate::proofs::Spelled::fitted))]
fn make_number(
    limit: Option<Limit>,
    form: Form,
    field: &[u8],
    room: &mut Room,
) -> Result<Option<Fit>, AllocError>
    ensures fitted { IfOk result (λ fit. IsFitted limit form field.now fit room.new.text.items) }
    ensures made { room.new.made ≡ room.old.made }
{
    match spelling_of(form, field) {
        Some(spelling) => Ok(Some(push_fitted(limit, &spelling, room)?)),
        None => Ok(None),
    }
}

// Makes a number within the limit, if there is one, and tells how it fits.
fn push_fitted(
    limit: Option<Limit>,
    spelling: &Spelling<'_>,
    room: &mut Room,
) -> Result<Fit, AllocError>
    requires { spelling.now.down < 2 ^ 64 - 1 }
    ensures fits { IfOk result (λ fit. fit
        ≡ fit_by limit spelling.now.up spelling.now.down (digits_in spelling.now.mantissa.now)) }
    ensures text { IfOk result (λ fit. room.new.text.items ≡ text_by limit spelling.now.is_minus
        spelling.now.up spelling.now.down (digits_in spelling.now.mantissa.now)) }
    ensures made { room.new.made ≡ room.old.made }
{
    room.text.clear();
    match limit {
        Some(limit) => Ok(push_within(spelling, limit, &mut room.digits, &mut room.text)?),
        None => {
            push_number(spelling, &mut room.digits, &mut room.text)?;
            Ok(Fit::Whole)
        }
    }
}

// The field without what stands around it.
fn bare<'a>(rules: &Rules<'_>, field: &'a [u8]) -> &'a [u8]
    ensures { result.now ≡ bare rules.now field.now }
{
    if rules.trims {
        return trimmed(field);
    }
    field
}

// Whether the field is one of these marks.
fn is_mark(marks: &[&str], field: &[u8]) -> bool
    ensures { result ≡ is_mark marks.now field.now }
{
    for i in 0..marks.len() {
        if marks[i].as_bytes() == field {
            return true;
        }
    }
    false
}
