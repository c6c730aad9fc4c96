// Exports, the rules for them, and what they become.
use prepare_rules::{Cause, Column, Failure, Mark, Order, Refusal, Rename, Report, Rules, prepare};
use std::alloc::{AllocError, Global};
use std::process::Abort;
use std::test::Fail;

/// Commas and double quotes, names first, and nothing else.
pub(crate) const PLAIN: Rules<'static> = Rules {
    delimiter: b',',
    quote: b'"',
    skip: 0,
    has_names: true,
    columns: &[],
    renames: &[],
    numbers: &[],
    dates: &[],
    order: Order::DayFirst,
    missing: &[],
    mark: Mark::Point,
    parts: None,
    exponents: false,
    limit: None,
    trims: false,
    pads: false,
};

// The text that becomes of an export, and what is told of it.
fn prepared(alloc: Global, rules: &Rules<'_>, export: &[u8]) -> Result<(Vec<u8>, Report), Failure> {
    prepare(alloc, rules, export, Vec::new(alloc))
}

fn becomes(alloc: Global, rules: &Rules<'_>, export: &[u8], text: &[u8]) -> bool {
    match prepared(alloc, rules, export) {
        Ok((made, report)) => made.as_slice() == text && report.refusal.is_none(),
        Err(_) => false,
    }
}

// A refusal of the record of this number that begins on this line.
fn at(number: u64, line: u64, cause: Cause) -> Refusal {
    Refusal {
        number,
        line: Some(line),
        cause,
    }
}

// Whether this text is written, and then this record refused.
fn ends(alloc: Global, rules: &Rules<'_>, export: &[u8], text: &[u8], refusal: Refusal) -> bool {
    match prepared(alloc, rules, export) {
        Ok((made, report)) => made.as_slice() == text && report.refusal == Some(refusal),
        Err(_) => false,
    }
}

fn expect(rt: &impl Abort, alloc: Global, rules: &Rules<'_>, export: &[u8], text: &[u8]) {
    assert!(rt; becomes(alloc, rules, export, text));
}

#[test]
fn marks_and_titles(rt: HostRuntime) {
    let rules = Rules {
        delimiter: b';',
        quote: b'\'',
        skip: 2,
        ..PLAIN
    };
    let export = b"Orders\nof \"2026\"\n\nday;'pay; net'\r\n5;'it''s'\n6;\"x\",y";
    let text = b"day,pay; net\n5,it's\n6,\"\"\"x\"\",y\"\n";
    expect(&rt, rt.alloc(), &rules, export, text);
}

#[test]
fn names_by_numbers(rt: HostRuntime) {
    let rules = Rules {
        has_names: false,
        columns: &[Column::Named("c3"), Column::Placed(1)],
        renames: &[Rename {
            from: "c1",
            to: "id, old",
        }],
        ..PLAIN
    };
    expect(
        &rt,
        rt.alloc(),
        &rules,
        b"\xEF\xBB\xBF7,a,x\n8,b,\"y\nz\"\n",
        b"c3,\"id, old\"\nx,7\n\"y\nz\",8\n",
    );
}

#[test]
fn missing_values_of_numbers(rt: HostRuntime) {
    let rules = Rules {
        numbers: &[Column::Placed(2)],
        missing: &["NA", "-"],
        trims: true,
        ..PLAIN
    };
    expect(
        &rt,
        rt.alloc(),
        &rules,
        b"land,pay\nNA , NA\n\t-,-\nNANA,xNA\n",
        b"land,pay\nNA,\n-,\nNANA,xNA\n",
    );
}

#[test]
fn numbers_of_another_country(rt: HostRuntime) {
    let rules = Rules {
        delimiter: b';',
        numbers: &[Column::Named("pay")],
        mark: Mark::Comma,
        parts: Some(b'.'),
        ..PLAIN
    };
    expect(
        &rt,
        rt.alloc(),
        &rules,
        b"note;pay\n1.234,5;1.234.567,50\nx;-0,5\n;12\n;1234,5\n;1.5\n;12.34\n;1,2,3\n;1,\n;-\n;+4,5\n;1.234.56\n\
;0.123\n",
        b"note,pay\n\"1.234,5\",1234567.50\nx,-0.5\n,12\n,1234.5\n,1.5\n,12.34\n,\"1,2,3\"\n,1\n,-\n,4.5\n,1.234.56\n\
,0.123\n",
    );
}

#[test]
fn numbers_of_other_programs(rt: HostRuntime) {
    let plain = Rules {
        numbers: &[Column::Placed(1)],
        ..PLAIN
    };
    let raised = Rules {
        exponents: true,
        ..plain
    };
    let export = b"x\n.5\n-.50\n5.\n+5\n007\n-0\n-00.0\n.\n+\n--1\n1e\n";
    let text = b"x\n0.5\n-0.50\n5\n5\n7\n0\n0.0\n.\n+\n--1\n1e\n";
    expect(&rt, rt.alloc(), &plain, export, text);
    expect(&rt, rt.alloc(), &raised, export, text);
    let export = b"x\n1.50e3\n1.50E+1\n-1.5e-3\n0e9\n12e001\n1e0001\n1e1.5\ne5\n1e5e5\n.5e1\n";
    let text = b"x\n1500\n15.0\n-0.0015\n0\n120\n1e0001\n1e1.5\ne5\n1e5e5\n5\n";
    expect(&rt, rt.alloc(), &raised, export, text);
    expect(&rt, rt.alloc(), &plain, export, export);
}

#[test]
fn short_records(rt: HostRuntime) {
    let export = b"a,b,c\n1,2,3\n4\n5,6,7,8\n";
    let pads = Rules {
        pads: true,
        ..PLAIN
    };
    let four = Cause::Fields {
        fields: 4,
        names: 3,
    };
    let one = Cause::Fields {
        fields: 1,
        names: 3,
    };
    assert!(rt;
        ends(
            rt.alloc(),
            &pads,
            export,
            b"a,b,c\n1,2,3\n4,,\n",
            at(4, 4, four)
        )
    );
    assert!(rt; ends(rt.alloc(), &PLAIN, export, b"a,b,c\n1,2,3\n", at(3, 3, one)));
}

#[test]
fn nothing_to_write(rt: HostRuntime) {
    let alloc = rt.alloc();
    let skips = Rules { skip: 3, ..PLAIN };
    let none = Refusal {
        number: 4,
        line: None,
        cause: Cause::NoHeader,
    };
    assert!(rt; ends(alloc, &skips, b"a\nb\nc\n", b"", none));
    let lacks = Rules {
        columns: &[Column::Named("a"), Column::Placed(2)],
        ..PLAIN
    };
    assert!(rt;
        ends(
            alloc,
            &lacks,
            b"a\n1\n",
            b"",
            at(1, 1, Cause::NoColumn { word: 1 })
        )
    );
    let numbers = Rules {
        numbers: &[Column::Named("A")],
        ..PLAIN
    };
    assert!(rt;
        ends(
            alloc,
            &numbers,
            b"a\n1\n",
            b"",
            at(1, 1, Cause::NoNumbers { word: 0 })
        )
    );
    let renames = Rules {
        renames: &[Rename { from: "b", to: "c" }],
        ..PLAIN
    };
    assert!(rt;
        ends(
            alloc,
            &renames,
            b"a\n1\n",
            b"",
            at(1, 1, Cause::NoName { word: 0 })
        )
    );
    let wide = b"1,2,3,4,5,6,7,8,9,10,11,12,13,14,15,16,17\n";
    assert!(rt;
        ends(
            alloc,
            &PLAIN,
            wide,
            b"",
            at(1, 1, Cause::Columns { columns: 17 })
        )
    );
}

// An export of two columns, the second of which has a name of so many bytes.
fn export_with_name(alloc: Global, size: usize) -> Result<Vec<u8>, AllocError> {
    let mut export = Vec::from_slice(alloc, b"a,")?;
    export.extend_from_slice(vec![in alloc; b'x'; size]?.as_slice())?;
    export.extend_from_slice(b"\n1,2\n")?;
    Ok(export)
}

#[test]
fn the_length_of_a_name(rt: HostRuntime) -> Result<(), Fail> {
    let alloc = rt.alloc();
    let longest = export_with_name(alloc, 128)?;
    expect(&rt, alloc, &PLAIN, longest.as_slice(), longest.as_slice());
    let longer = export_with_name(alloc, 129)?;
    let refusal = at(1, 1, Cause::LongName { column: 2 });
    assert!(rt; ends(alloc, &PLAIN, longer.as_slice(), b"", refusal));
    Ok(())
}

// Whether nothing is written for two names that are equal.
fn are_equal(alloc: Global, rules: &Rules<'_>, export: &[u8], first: usize, second: usize) -> bool {
    let refusal = at(1, 1, Cause::TwiceNamed { first, second });
    ends(alloc, rules, export, b"", refusal)
}

#[test]
fn equal_names(rt: HostRuntime) {
    let alloc = rt.alloc();
    let export = b"a,b,c,b\n1,2,3,4\n";
    assert!(rt; are_equal(alloc, &PLAIN, export, 2, 4));
    assert!(rt; are_equal(alloc, &PLAIN, b",a,\n1,2,3\n", 1, 3));
    let some = Rules {
        columns: &[Column::Placed(4), Column::Named("c")],
        ..PLAIN
    };
    expect(&rt, alloc, &some, export, b"b,c\n4,3\n");
    let twice = Rules {
        columns: &[Column::Placed(1), Column::Named("a")],
        ..PLAIN
    };
    assert!(rt; are_equal(alloc, &twice, export, 1, 2));
    let renames = Rules {
        has_names: false,
        renames: &[Rename {
            from: "c1",
            to: "c2",
        }],
        ..PLAIN
    };
    assert!(rt; are_equal(alloc, &renames, b"1,2\n", 1, 2));
}

#[test]
fn a_mark_before_a_name(rt: HostRuntime) {
    let alloc = rt.alloc();
    let export = b"\xEF\xBB\xBF\xEF\xBB\xBFa,b\n1,2\n";
    let refusal = at(1, 1, Cause::MarkedName);
    assert!(rt; ends(alloc, &PLAIN, export, b"", refusal));
    let turned = Rules {
        columns: &[Column::Placed(2), Column::Placed(1)],
        ..PLAIN
    };
    expect(&rt, alloc, &turned, export, b"b,\xEF\xBB\xBFa\n2,1\n");
    expect(
        &rt,
        alloc,
        &PLAIN,
        b"\xEF\xBB,\xBF\n1,2\n",
        b"\xEF\xBB,\xBF\n1,2\n",
    );
}

#[test]
fn the_line_of_a_record(rt: HostRuntime) {
    let two = Cause::Fields {
        fields: 2,
        names: 1,
    };
    let alloc = rt.alloc();
    assert!(rt;
        ends(
            alloc,
            &PLAIN,
            b"a\r\n\r\n\"x\ny\"\n1,2\n",
            b"a\n\"x\ny\"\n",
            at(3, 5, two)
        )
    );
    assert!(rt; ends(alloc, &PLAIN, b"a\r\r1,2", b"a\n", at(2, 3, two)));
    assert!(rt; ends(alloc, &PLAIN, b"a\n\"1\n2\n\",2\n3", b"a\n", at(2, 2, two)));
}
