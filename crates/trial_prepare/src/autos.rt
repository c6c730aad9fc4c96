// Exports that are written as a look at them says.
use crate::exports::PLAIN;
use prepare_auto::{Given, Stop, write_auto};
use prepare_rules::{Cause, Column, Limit, Refusal, Rules};
use std::alloc::Global;
use std::process::Abort;

/// Nothing is asked for.
const NOTHING: Given = Given {
    delimiter: false,
    skip: false,
};

// Whether this text is written of an export, and then this stops it.
fn gives(
    alloc: Global,
    (rules, given): (&Rules<'_>, Given),
    export: &[u8],
    text: &[u8],
    wanted: Option<Stop>,
) -> bool {
    match write_auto(alloc, rules, given, export, Vec::new(alloc)) {
        Ok((made, ending, _)) => made.as_slice() == text && ending.stop == wanted,
        Err(_) => false,
    }
}

fn expect(rt: &impl Abort, alloc: Global, rules: &Rules<'_>, export: &[u8], text: &[u8]) {
    assert!(rt; gives(alloc, (rules, NOTHING), export, text, None));
}

#[test]
fn marks_of_another_country(rt: HostRuntime) {
    expect(
        &rt,
        rt.alloc(),
        &PLAIN,
        b"day;note;amount\n05.01.2026;1,5 or 1.234,5;1.204,50\n06.01.2026;NA;NA\n07.01.2026;x;-7\n",
        b"day,note,amount\n05.01.2026,\"1,5 or 1.234,5\",1204.50\n06.01.2026,NA,\n07.01.2026,x,-7\n",
    );
    expect(
        &rt,
        rt.alloc(),
        &PLAIN,
        b"a\tb\n1 234\tx\n12\ty\n",
        b"a,b\n1234,x\n12,y\n",
    );
}

#[test]
fn dates_are_asked_for_beside_it(rt: HostRuntime) {
    let days = Rules {
        dates: &[Column::Named("day")],
        missing: &["?"],
        ..PLAIN
    };
    expect(
        &rt,
        rt.alloc(),
        &days,
        b"day;note;amount\n5.1.2026;5.1.2026;1.204,50\n?;?;NA\nNA;x;-7\n",
        b"day,note,amount\n2026-01-05,5.1.2026,1204.50\n,?,\n,x,-7\n",
    );
}

#[test]
fn what_is_right_stays(rt: HostRuntime) {
    let export = b"id,price,call\n007,1.50,12E4\n008,-5.25,3E1\n";
    expect(&rt, rt.alloc(), &PLAIN, export, export);
}

#[test]
fn numbers_of_programs(rt: HostRuntime) {
    expect(
        &rt,
        rt.alloc(),
        &PLAIN,
        b"id,share,note\n1,.5,.5\n2,-5.,x\n",
        b"id,share,note\n1,0.5,.5\n2,-5,x\n",
    );
    expect(
        &rt,
        rt.alloc(),
        &PLAIN,
        b"id,mass,far\n1,1.5e3,1e-12\n2,2.50000000000,2.5e+03\n3,1.000e-09,1\n",
        b"id,mass,far\n1,1500,1e-12\n2,2.500000000,2.5e+03\n3,0.000000001,1\n",
    );
    expect(
        &rt,
        rt.alloc(),
        &PLAIN,
        b"id,rate\n1,0.12345678901\n2,.5\n",
        b"id,rate\n1,0.12345678901\n2,.5\n",
    );
    let four = Rules {
        limit: Some(Limit {
            places: 4,
            rounds: true,
        }),
        ..PLAIN
    };
    expect(
        &rt,
        rt.alloc(),
        &four,
        b"id,mass\n1,1.23456e-1\n2,NA\n",
        b"id,mass\n1,0.1235\n2,\n",
    );
}

#[test]
fn no_names(rt: HostRuntime) {
    expect(&rt, rt.alloc(), &PLAIN, b"1|2\n3|4\n", b"c1,c2\n1,2\n3,4\n");
    let nameless = Rules {
        has_names: false,
        ..PLAIN
    };
    expect(
        &rt,
        rt.alloc(),
        &nameless,
        b"x,y\n1,2\n",
        b"c1,c2\nx,y\n1,2\n",
    );
}

#[test]
fn titles_are_asked_for(rt: HostRuntime) {
    let export = b"Sales\nmade today\na;b\n1;2\n";
    let titles = Stop::Titles {
        records: 2,
        line: 3,
    };
    assert!(rt; gives(rt.alloc(), (&PLAIN, NOTHING), export, b"", Some(titles)));
    let asked = Given {
        delimiter: false,
        skip: true,
    };
    let two = Rules { skip: 2, ..PLAIN };
    assert!(rt; gives(rt.alloc(), (&two, asked), export, b"a,b\n1,2\n", None));
    let short = Stop::Record(Refusal {
        number: 3,
        line: Some(3),
        cause: Cause::Fields {
            fields: 2,
            names: 1,
        },
    });
    assert!(rt;
        gives(
            rt.alloc(),
            (&PLAIN, asked),
            export,
            b"Sales\nmade today\n",
            Some(short)
        )
    );
}

#[test]
fn what_is_asked_for_wins(rt: HostRuntime) {
    let asked = Given {
        delimiter: true,
        skip: false,
    };
    let export = b"a;b,c;d\n1;2,3;4\n5;6,7;8\n";
    let text = b"a;b,c;d\n1;2,3;4\n5;6,7;8\n";
    assert!(rt; gives(rt.alloc(), (&PLAIN, asked), export, text, None));
    let rules = Rules {
        numbers: &[Column::Named("b")],
        missing: &["x"],
        ..PLAIN
    };
    expect(
        &rt,
        rt.alloc(),
        &rules,
        b"a;b\n1,5;x\n2,5;NA\n",
        b"a,b\n\"1,5\",\n\"2,5\",NA\n",
    );
}

#[test]
fn a_record_is_refused(rt: HostRuntime) {
    let short = Stop::Record(Refusal {
        number: 3,
        line: Some(3),
        cause: Cause::Fields {
            fields: 1,
            names: 2,
        },
    });
    assert!(rt;
        gives(
            rt.alloc(),
            (&PLAIN, NOTHING),
            b"a,b\n1,2\n3\n",
            b"a,b\n1,2\n",
            Some(short)
        )
    );
}
