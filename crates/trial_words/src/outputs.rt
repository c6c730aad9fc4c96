// What no clause says: the worked outputs, line by line, and that each call finds memory.
ghost use Rattle.std.specs.Prelude.{◌≡◌, ◌≤◌, ◌∷◌, [], ℕ, List, Some, None, All, IfOk, length};
ghost use Rattle.std.specs.Bool.{OnTrue};
ghost use Rattle.std.specs.List.{AllByRecursion, AllZip};
ghost use Rattle.table_core.specs.Value.{places_of};
ghost use Rattle.table_core.specs.Answer.{dict_at};
ghost use Rattle.query_meaning.specs.declared.item.Item.TheVariants as item;
ghost use Rattle.query_gather.specs.Answer.{CanBeWritten};
ghost use Rattle.sql_bind.specs.declared.plan.Plan as spec_plan;
ghost use Rattle.run_output.specs.Answers.{NamesColumns};
ghost use Rattle.run_stops.specs.Outcomes.{plans_of};

use crate::lines::{Named, refusal_of};
use agg_groups::{Item, Rows};
use query_gather::{Answer, Cause};
use run_output::{Totals, output_text, status_of};
use run_stops::Outcome;
use scan_story::Entry;
use sql_bind::{BindRefusal, Plan, StatementRefusal};
use sql_tokens::TextRefusal;
use std::alloc::{AllocError, Global};
use std::process::Abort;
use std::test::Fail;
use table_core::Cell::{Code, Int, Null};
use table_core::{Bytes, Column, ColumnSet, Dict, Kind, Schema, places_of_kind};
use top_rows::{Picked, RowPlan};

fn bytes_of(alloc: Global, text: &[u8]) -> Result<Bytes, AllocError> {
    Ok(Bytes::new(Vec::from_slice(alloc, text)?))
}

// The columns id, dept, and pay with two places.
fn schema(alloc: Global) -> Result<Schema, Fail> {
    let mut columns = Vec::new(alloc);
    let named: [(&[u8], Kind); 3] = [
        (b"id", Kind::Int),
        (b"dept", Kind::Text),
        (b"pay", Kind::Dec { places: 2 }),
    ];
    for (name, kind) in named {
        columns.push(Column {
            name: bytes_of(alloc, name)?,
            kind,
        })?;
    }
    Ok(Schema::new(columns))
}

// Dictionaries for these columns, that of dept with one text.
fn dicts(alloc: Global) -> Result<Vec<Dict>, Fail> {
    let mut dept = Dict::new(alloc);
    dept.push(b"it's")?;
    Ok(vec![in alloc; Dict::new(alloc), dept, Dict::new(alloc)]?)
}

// Whether these are three columns, each with its dictionary, of which the second has one text.
fn can_print(schema: &Schema, dicts: &[Dict]) -> bool
    ensures columns { OnTrue result (length schema.now ≡ 3) }
    ensures places { OnTrue result (All (λ c. places_of c.kind ≤ 9) schema.now) }
    ensures dicts { OnTrue result (length dicts.now ≡ 3) }
    ensures texts { OnTrue result (length (dict_at dicts.now (Some 1)) ≡ 1) }
{
    schema.len() == 3
        && dicts.len() == 3
        && dicts[1].len() == 1
        && schema
            .columns()
            .iter()
            .all(|column| places_of_kind(column.kind) <= 9)
}

// A plan without a limit.
fn groups_of(alloc: Global, items: &[Item], keys: &[u32]) -> Result<Plan, Fail>
    ensures items { IfOk result (λ plan. plan.items.items ≡ items.now) }
    ensures keys { IfOk result (λ plan. plan.keys.items ≡ keys.now) }
    ensures rows { IfOk result (λ plan. plan.rows ≡ None) }
{
    Ok(Plan {
        items: Vec::from_slice(alloc, items)?,
        keys: Vec::from_slice(alloc, keys)?,
        cond: None,
        columns: ColumnSet::empty(),
        rows: None,
    })
}

// Tests that a batch prints this text, and that the run ends with this status.
fn prints(
    rt: &impl Abort,
    alloc: Global,
    outcomes: &[Outcome],
    answers: &[Answer],
    summary: Option<Totals>,
    trace: Option<&[Entry]>,
    wanted: (&[u8], u8),
) -> Result<(), Fail>
    requires count { length answers.now ≡ length (plans_of outcomes.now) }
    requires columns { AllByRecursion (NamesColumns 3) (plans_of outcomes.now) }
    requires answers { (dicts : List (List (List ℕ))) → length (dict_at dicts (Some 1)) ≡ 1
        → AllZip (CanBeWritten dicts) (plans_of outcomes.now) answers.now }
{
    let schema = schema(alloc)?;
    let dicts = dicts(alloc)?;
    assert!(rt; can_print(&schema, &dicts));
    assert!(rt; outcomes.len() <= 256);
    let text = output_text(alloc, &schema, &dicts, outcomes, answers, summary, trace)?;
    assert_eq!(rt; text.as_slice(), wanted.0);
    assert_eq!(rt; status_of(outcomes, answers), wanted.1);
    Ok(())
}

// Tests that a statement which is refused for its text or its names prints this line.
fn refuses(rt: &impl Abort, alloc: Global, why: StatementRefusal, line: &[u8]) -> Result<(), Fail> {
    let outcomes = vec![in alloc; Outcome::Refused(why)]?;
    prints(rt, alloc, &outcomes, &[], None, None, (line, 1))
}

const TEXTS: [(TextRefusal, &[u8]); 4] = [
    (TextRefusal::Syntax, b"refused 1: syntax\n"),
    (TextRefusal::TooNested, b"refused 1: too nested\n"),
    (TextRefusal::TooManyItems, b"refused 1: too many items\n"),
    (TextRefusal::Memory, b"refused 1: memory\n"),
];

const NAMES: [(Named, &[u8], &[u8]); 4] = [
    (Named::Table, b"u", b"refused 1: unknown table 'u'\n"),
    (Named::Column, b"zz", b"refused 1: unknown column 'zz'\n"),
    (Named::Kind, b"dept", b"refused 1: wrong kind 'dept'\n"),
    (Named::Plain, b"it's", b"refused 1: not grouped 'it''s'\n"),
];

#[test]
fn each_refused_statement_has_its_line(rt: HostRuntime) -> Result<(), Fail> {
    for (why, line) in TEXTS {
        refuses(&rt, rt.alloc(), StatementRefusal::Text(why), line)?;
    }
    for (way, name, line) in NAMES {
        let why = refusal_of(rt.alloc(), way, name)?;
        refuses(&rt, rt.alloc(), why, line)?;
    }
    let memory = StatementRefusal::Query(BindRefusal::Memory);
    refuses(&rt, rt.alloc(), memory, b"refused 1: memory\n")
}

// Tests that two sums which are stopped, or of which one overflows, print this line.
fn is_lost(rt: &impl Abort, alloc: Global, answer: Answer, line: &[u8]) -> Result<(), Fail>
    requires { (dicts : List (List (List ℕ))) (p : spec_plan.Plan) → p.rows ≡ None
        → p.items.items ≡ item.Sum 0 ∷ item.Sum 2 ∷ [] → CanBeWritten dicts p answer }
{
    let plan = groups_of(alloc, &[Item::Sum(0), Item::Sum(2)], &[])?;
    let outcomes = vec![in alloc; Outcome::Planned(plan)]?;
    let answers = vec![in alloc; answer]?;
    prints(rt, alloc, &outcomes, &answers, None, None, (line, 1))
}

const CAUSES: [(Cause, &[u8]); 3] = [
    (
        Cause::Read {
            before: 1,
            after: 2,
        },
        b"refused 1: read fault\n",
    ),
    (
        Cause::Damage { piece: 3, word: 4 },
        b"refused 1: damaged piece 3\n",
    ),
    (Cause::Memory, b"refused 1: memory\n"),
];

#[test]
fn each_stopped_query_has_its_line(rt: HostRuntime) -> Result<(), Fail> {
    for (cause, line) in CAUSES {
        is_lost(&rt, rt.alloc(), Answer::Stopped(cause), line)?;
    }
    Ok(())
}

#[test]
fn each_sum_without_an_answer_has_its_line(rt: HostRuntime) -> Result<(), Fail> {
    let total = 9223372036854775808;
    let of_id = b"refused 1: sum overflow item 1 total 9223372036854775808\n";
    is_lost(&rt, rt.alloc(), Answer::Overflow { item: 1, total }, of_id)?;
    let of_pay = b"refused 1: sum overflow item 2 total 92233720368547758.08\n";
    is_lost(&rt, rt.alloc(), Answer::Overflow { item: 2, total }, of_pay)
}

#[test]
fn a_batch_without_statements_prints_nothing(rt: HostRuntime) -> Result<(), Fail> {
    let alloc = rt.alloc();
    prints(&rt, alloc, &[], &[], None, None, (b"", 0))?;
    let totals = Totals {
        deliveries: 0,
        rows: 5,
    };
    let line = b"summary: 0 queries, 0 answered, 0 deliveries, 5 rows\n";
    prints(&rt, alloc, &[], &[], Some(totals), None, (line, 0))
}

// Sums and counts of pay by dept, with their answer.
fn sums(alloc: Global) -> Result<(Plan, Answer), Fail>
    ensures columns { IfOk result (λ r. NamesColumns 3 r.0) }
    ensures cells { IfOk result (λ r. (dicts : List (List (List ℕ))) → length (dict_at dicts (Some 1)) ≡ 1
        → CanBeWritten dicts r.0 r.1) }
{
    let plan = groups_of(alloc, &[Item::Key(0), Item::Sum(2), Item::Count(2)], &[1])?;
    let none = vec![in alloc; Null, Int(1025), Int(1)]?;
    let some = vec![in alloc; Code(0), Int(-5), Int(2)]?;
    let rows = Rows::new(vec![in alloc; none, some]?);
    Ok((plan, Answer::Rows(rows)))
}

// The first rows of the table, with their answer.
fn first_rows(alloc: Global) -> Result<(Plan, Answer), Fail>
    ensures columns { IfOk result (λ r. NamesColumns 3 r.0) }
    ensures cells { IfOk result (λ r. (dicts : List (List (List ℕ))) → length (dict_at dicts (Some 1)) ≡ 1
        → CanBeWritten dicts r.0 r.1) }
{
    let rows = RowPlan {
        columns: vec![in alloc; 0, 1, 2]?,
        order: Vec::new(alloc),
        limit: 2,
    };
    let plan = Plan {
        items: Vec::new(alloc),
        keys: Vec::new(alloc),
        cond: None,
        columns: ColumnSet::empty(),
        rows: Some(rows),
    };
    let first = vec![in alloc; Int(1), Code(0), Int(4000)]?;
    let second = vec![in alloc; Int(2), Null, Null]?;
    let picked = Picked::new(vec![in alloc; first, second]?);
    Ok((plan, Answer::Picked(picked)))
}

// The number of rows, with its answer.
fn count(alloc: Global) -> Result<(Plan, Answer), Fail>
    ensures columns { IfOk result (λ r. NamesColumns 3 r.0) }
    ensures cells { IfOk result (λ r. (dicts : List (List (List ℕ))) → CanBeWritten dicts r.0 r.1) }
{
    let plan = groups_of(alloc, &[Item::CountAll], &[])?;
    let row = vec![in alloc; Int(5)]?;
    Ok((plan, Answer::Rows(Rows::new(vec![in alloc; row]?))))
}

#[test]
fn statements_are_printed_in_order(rt: HostRuntime) -> Result<(), Fail> {
    let alloc = rt.alloc();
    let name = bytes_of(alloc, b"dept")?;
    let kind = StatementRefusal::Query(BindRefusal::WrongKind { name });
    let syntax = StatementRefusal::Text(TextRefusal::Syntax);
    let sums = sums(alloc)?;
    let firsts = first_rows(alloc)?;
    let lost = groups_of(alloc, &[Item::CountAll], &[])?;
    let read = Answer::Stopped(Cause::Read {
        before: 1,
        after: 2,
    });
    let count = count(alloc)?;
    let outcomes = vec![in alloc;
        Outcome::Planned(sums.0),
        Outcome::Refused(kind),
        Outcome::Planned(firsts.0),
        Outcome::Refused(syntax),
        Outcome::Planned(lost),
        Outcome::Planned(count.0),
    ]?;
    let answers = vec![in alloc; sums.1, firsts.1, read, count.1]?;
    let totals = Totals {
        deliveries: 12,
        rows: 5,
    };
    let text =
        b"query 1\nNULL, 10.25, 1\n'it''s', -0.05, 2\nrefused 2: wrong kind 'dept'\nquery 3\n1, 'it''s', 40.00\n\
2, NULL, NULL\nrefused 4: syntax\nrefused 5: read fault\nquery 6\n5\n\
summary: 6 queries, 3 answered, 12 deliveries, 5 rows\nregister 0 1\ndeliver 0 1 2\n";
    let story = [
        Entry::Register {
            worker: 0,
            query: 1,
        },
        Entry::Deliver {
            worker: 0,
            query: 1,
            chunk: 2,
        },
    ];
    prints(
        &rt,
        alloc,
        &outcomes,
        &answers,
        Some(totals),
        Some(&story),
        (text, 1),
    )
}

#[test]
fn a_run_without_refusals_has_status_0(rt: HostRuntime) -> Result<(), Fail> {
    let alloc = rt.alloc();
    let sums = sums(alloc)?;
    let count = count(alloc)?;
    let outcomes = vec![in alloc; Outcome::Planned(count.0), Outcome::Planned(sums.0)]?;
    let answers = vec![in alloc; count.1, sums.1]?;
    let text = b"query 1\n5\nquery 2\nNULL, 10.25, 1\n'it''s', -0.05, 2\n";
    prints(&rt, alloc, &outcomes, &answers, None, None, (text, 0))
}
