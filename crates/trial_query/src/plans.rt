// What no clause says: the worked refusals and plans, and that comparisons agree with arithmetic done another way.
ghost use Rattle.std.specs.Prelude.{◌≡◌, ◌≤◌, ◌<◌, ◌-◌, [], All, false, length, slice_index_or};
ghost use Rattle.std.specs.Bool.{OnTrue};
ghost use Rattle.std.specs.Ordering.{is_gt};
ghost use Rattle.table_core.specs.Dict.{text_cmp};
ghost use Rattle.table_core.specs.Value.{places_of};

mod comparing;
mod planning;

use sql_bind::{Plan, StatementRefusal, plan_of};
use std::alloc::{AllocError, Global};
use std::process::Abort;
use std::test::Fail;
use table_core::{Bytes, Column, Dict, Kind, Schema, places_of_kind};

pub(crate) const CODES: [&[u8]; 5] = [b"", b"a", b"ab", b"b", b"\xFF"];

// The columns id, dept, pay, price with two places, and code, each with the texts in its dictionary.
const COLUMNS: [(&[u8], Kind, &[&[u8]]); 5] = [
    (b"id", Kind::Int, &[]),
    (b"dept", Kind::Text, &[b"a", b"b", b"c"]),
    (b"pay", Kind::Int, &[]),
    (b"price", Kind::Dec { places: 2 }, &[]),
    (b"code", Kind::Text, &CODES),
];

fn schema(alloc: Global) -> Result<Schema, AllocError> {
    let mut columns = Vec::new(alloc);
    for (name, kind, _) in COLUMNS {
        let name = Bytes::new(name.to_vec(alloc)?);
        columns.push(Column { name, kind })?;
    }
    Ok(Schema::new(columns))
}

// Whether the text may stand at the end of the dictionary.
fn can_follow(dict: &Dict, text: &[u8]) -> bool
    ensures { OnTrue result (0 < length dict.now
        → is_gt (text_cmp (slice_index_or dict.now (length dict.now - 1) []) text.now) ≡ false) }
{
    let len = dict.len();
    if len == 0 {
        return true;
    }
    !dict.text_of(len - 1).cmp(text).is_gt()
}

fn dict(rt: &impl Abort, alloc: Global, texts: &[&[u8]]) -> Result<Dict, AllocError> {
    let mut dict = Dict::new(alloc);
    for text in texts {
        assert!(rt; can_follow(&dict, text));
        dict.push(text)?;
    }
    Ok(dict)
}

fn dicts(rt: &impl Abort, alloc: Global) -> Result<Vec<Dict>, AllocError> {
    let mut dicts = Vec::new(alloc);
    for (_, _, texts) in COLUMNS {
        dicts.push(dict(rt, alloc, texts)?)?;
    }
    Ok(dicts)
}

fn can_bind(schema: &Schema, dicts: &[Dict]) -> bool
    ensures few { OnTrue result (length schema.now ≤ 16) }
    ensures places { OnTrue result (All (λ c. places_of c.kind ≤ 9) schema.now) }
    ensures dicts { OnTrue result (length dicts.now ≡ length schema.now) }
{
    schema.len() <= 16
        && dicts.len() == schema.len()
        && schema
            .columns()
            .iter()
            .all(|column| places_of_kind(column.kind) <= 9)
}

pub(crate) fn plan(
    rt: &impl Abort,
    alloc: Global,
    text: &[u8],
) -> Result<Result<Plan, StatementRefusal>, Fail> {
    let schema = schema(alloc)?;
    let dicts = dicts(rt, alloc)?;
    assert!(rt; can_bind(&schema, &dicts) && text.len() <= 1000);
    Ok(plan_of(alloc, text, &schema, &dicts))
}
