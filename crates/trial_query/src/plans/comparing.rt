// The truth of conditions on rows.
use crate::fitting::fits_row;
use crate::plans::{CODES, plan};
use filter_zones::{Truth, truth_of};
use sql_bind::Plan;
use std::alloc::{AllocError, Global};
use std::cmp::Ordering;
use std::process::Abort;
use std::test::Fail;
use table_core::Cell::{self, Code, Int, Null};

const OPS: [&[u8]; 6] = [b"=", b"<>", b"<", b"<=", b">", b">="];

fn is_met(op: usize, order: Ordering) -> bool {
    match op {
        0 => order.is_eq(),
        1 => !order.is_eq(),
        2 => order.is_lt(),
        3 => order.is_le(),
        4 => order.is_gt(),
        _ => order.is_ge(),
    }
}

fn add_parts(text: &mut Vec<u8>, parts: [&[u8]; 3]) -> Result<(), AllocError> {
    for part in parts {
        text.extend_from_slice(part)?;
    }
    Ok(())
}

// The plan of `SELECT COUNT(*) FROM t WHERE` these parts, if there is one.
fn plan_where(rt: &impl Abort, alloc: Global, parts: [&[u8]; 3]) -> Result<Option<Plan>, Fail> {
    let mut text = b"SELECT COUNT(*) FROM t WHERE ".to_vec(alloc)?;
    add_parts(&mut text, parts)?;
    match plan(rt, alloc, &text)? {
        Ok(plan) => Ok(Some(plan)),
        Err(_) => Ok(None),
    }
}

// A cell in its column, and NULL in the others.
fn row_with(column: usize, cell: Cell) -> [Cell; 5] {
    let mut row = [Null; 5];
    row[column % 5] = cell;
    row
}

// The truth of the plan's condition on a row, if there is one.
fn truth(rt: &impl Abort, plan: &Option<Plan>, row: &[Cell]) -> Option<Truth> {
    match plan {
        Some(
            Plan {
                cond: Some(cond),
                ..
            },
        ) => {
            assert!(rt; fits_row(cond, row));
            Some(truth_of(cond, row))
        }
        _ => None,
    }
}

fn said(is_true: bool) -> Option<Truth> {
    Some(if is_true { Truth::True } else { Truth::False })
}

const MOST: i64 = 9223372036854775807;

const LEAST: i64 = -9223372036854775808;

// A literal, the number that it is, a point left out, and the power of ten by which it is divided.
type Number<'a> = (&'a [u8], i64, i128);

const NUMBERS: &[Number<'static>] = &[
    (b"0", 0, 1),
    (b"-0.0", 0, 10),
    (b"1", 1, 1),
    (b"-1", -1, 1),
    (b"1.5", 15, 10),
    (b"1.50", 150, 100),
    (b"1.500000000", 1500000000, 1000000000),
    (b"1.49", 149, 100),
    (b"1.495", 1495, 1000),
    (b"1.505", 1505, 1000),
    (b"-1.5", -15, 10),
    (b"-1.495", -1495, 1000),
    (b"-1.505", -1505, 1000),
    (b"0.000000001", 1, 1000000000),
    (b"-0.000000001", -1, 1000000000),
    (b"92233720368547758.07", MOST, 100),
    (b"92233720368547758.06", 9223372036854775806, 100),
    (b"-92233720368547758.08", LEAST, 100),
    (b"9223372036854775807", MOST, 1),
    (b"-9223372036854775808", LEAST, 1),
    (b"9223372036.854775807", MOST, 1000000000),
    (b"-9223372036.854775808", LEAST, 1000000000),
];

const CELLS: [i64; 19] = [
    LEAST,
    -9223372036854775807,
    -922337203686,
    -151,
    -150,
    -149,
    -2,
    -1,
    0,
    1,
    2,
    149,
    150,
    151,
    9223372036,
    9223372037,
    922337203685,
    9223372036854775806,
    MOST,
];

// Tests the plan's comparison of each cell of a column, whose cells count parts of one, with a literal.
fn compares_cells(
    rt: &impl Abort,
    plan: &Option<Plan>,
    (column, scale): (usize, i128),
    op: usize,
    (literal, number, power): Number<'_>,
) -> Result<(), Fail> {
    for cell in CELLS {
        let order = i128::from(cell)
            .wrapping_mul(power)
            .cmp(&i128::from(number).wrapping_mul(scale));
        let truth = truth(rt, plan, &row_with(column, Int(cell)));
        assert!(rt;
            truth == said(is_met(op, order)),
            "{cell} {op} {literal:?} {column}"
        );
    }
    let truth = truth(rt, plan, &row_with(column, Null));
    assert!(rt; truth == Some(Truth::Unknown), "{literal:?}");
    Ok(())
}

// Tests a comparison of a column, whose cells count parts of one, with a literal.
fn compares(
    rt: &impl Abort,
    alloc: Global,
    (name, column, scale): (&[u8], usize, i128),
    (op, sign): (usize, &[u8]),
    number: Number<'_>,
) -> Result<(), Fail> {
    let plan = plan_where(rt, alloc, [name, sign, number.0])?;
    compares_cells(rt, &plan, (column, scale), op, number)
}

// Each number under a comparison, with a column of whole numbers and with one of two places.
fn expect_numbers(
    rt: &impl Abort,
    alloc: Global,
    op: (usize, &[u8]),
    rows: &[Number<'_>],
) -> Result<(), Fail> {
    for number in rows {
        compares(rt, alloc, (b"id", 0, 1), op, *number)?;
        compares(rt, alloc, (b"price", 3, 100), op, *number)?;
    }
    Ok(())
}

#[test]
fn numbers_are_compared_exactly(rt: HostRuntime) -> Result<(), Fail> {
    for op in 0..OPS.len() {
        expect_numbers(&rt, rt.alloc(), (op, OPS[op]), NUMBERS)?;
    }
    Ok(())
}

// Literals with the texts that they are.
const TEXTS: &[(&[u8], &[u8])] = &[
    (b"''", b""),
    (b"' '", b" "),
    (b"'A'", b"A"),
    (b"'a'", b"a"),
    (b"'a'''", b"a'"),
    (b"'aa'", b"aa"),
    (b"'ab'", b"ab"),
    (b"'abc'", b"abc"),
    (b"'b'", b"b"),
    (b"'\xFF'", b"\xFF"),
    (b"'\xFF0'", b"\xFF0"),
];

// Whether each text of the column `code` is compared with a text as it must be, and NULL is unknown.
fn are_compared(rt: &impl Abort, plan: &Option<Plan>, op: usize, text: &[u8]) -> bool {
    for code in 0..CODES.len() {
        let order = CODES[code].cmp(text);
        if truth(rt, plan, &row_with(4, Code(code as u32))) != said(is_met(op, order)) {
            return false;
        }
    }
    truth(rt, plan, &row_with(4, Null)) == Some(Truth::Unknown)
}

// Tests a comparison of each text of the column `code` with a literal.
fn compares_text(
    rt: &impl Abort,
    alloc: Global,
    (op, sign): (usize, &[u8]),
    (literal, text): (&[u8], &[u8]),
) -> Result<(), Fail> {
    let plan = plan_where(rt, alloc, [b"code", sign, literal])?;
    assert!(rt; are_compared(rt, &plan, op, text), "{op} {text:?}");
    Ok(())
}

fn expect_texts(
    rt: &impl Abort,
    alloc: Global,
    op: (usize, &[u8]),
    rows: &[(&[u8], &[u8])],
) -> Result<(), Fail> {
    for text in rows {
        compares_text(rt, alloc, op, *text)?;
    }
    Ok(())
}

#[test]
fn texts_are_compared_byte_by_byte(rt: HostRuntime) -> Result<(), Fail> {
    for op in 0..OPS.len() {
        expect_texts(&rt, rt.alloc(), (op, OPS[op]), TEXTS)?;
    }
    Ok(())
}

// The rows of id, dept and pay: 1 a 10, 2 b 20, 3 a NULL, 4 c 40, 5 b -5.
const ROWS: [[Cell; 5]; 5] = [
    [Int(1), Code(0), Int(10), Null, Null],
    [Int(2), Code(1), Int(20), Null, Null],
    [Int(3), Code(0), Null, Null, Null],
    [Int(4), Code(2), Int(40), Null, Null],
    [Int(5), Code(1), Int(-5), Null, Null],
];

// Conditions, and for each row whether it is True, Unknown or False.
const CONDITIONS: &[(&[u8], &[u8])] = &[
    (b"id >= 4", b"FFFTT"),
    (b"id > 9", b"FFFFF"),
    (b"NOT pay > 15", b"TFUFT"),
    (b"pay IS NULL", b"FFTFF"),
    (b"NOT pay IS NOT NULL", b"FFTFF"),
    (b"dept = 'a' OR pay > 15", b"TTTTF"),
    (b"dept = 'b' OR pay > 15", b"FTUTT"),
    (b"dept = 'a' AND pay > 15", b"FFUFF"),
    (b"NOT (dept = 'a' AND pay < 15)", b"FTUTT"),
    (b"id = 1 OR id = 2 AND pay < 0", b"TFFFF"),
    (b"(id = 1 OR id = 2) AND pay < 15", b"TFFFF"),
    (b"dept > 'aa' AND dept < 'bz'", b"FTFFT"),
];

fn letter(truth: Option<Truth>) -> u8 {
    match truth {
        Some(Truth::True) => b'T',
        Some(Truth::Unknown) => b'U',
        Some(Truth::False) => b'F',
        None => b'-',
    }
}

// Whether the condition has these truths on the five rows.
fn has_truths(rt: &impl Abort, plan: &Option<Plan>, wanted: &[u8]) -> bool {
    if wanted.len() != ROWS.len() {
        return false;
    }
    for i in 0..wanted.len() {
        if letter(truth(rt, plan, &ROWS[i])) != wanted[i] {
            return false;
        }
    }
    true
}

// Tests the truth of a condition on each of the five rows.
fn expect_truths(rt: &impl Abort, alloc: Global, text: &[u8], wanted: &[u8]) -> Result<(), Fail> {
    let plan = plan_where(rt, alloc, [text, b"", b""])?;
    assert!(rt; has_truths(rt, &plan, wanted), "{text:?}");
    Ok(())
}

fn expect_conditions(rt: &impl Abort, alloc: Global, rows: &[(&[u8], &[u8])]) -> Result<(), Fail> {
    for (text, wanted) in rows {
        expect_truths(rt, alloc, text, wanted)?;
    }
    Ok(())
}

#[test]
fn conditions_have_three_truths(rt: HostRuntime) -> Result<(), Fail> {
    expect_conditions(&rt, rt.alloc(), CONDITIONS)
}
