// What the rules did, and numbers with more digits behind the point than may be.
use crate::exports::PLAIN;
use prepare_rules::{Cause, Column, Hits, Limit, Mark, Refusal, Report, Rules, Tally, prepare};
use std::alloc::Global;

// No field.
const NONE: Hits = Hits { count: 0, line: 0 };
/// Nothing was done.
pub(crate) const NOTHING: Tally = Tally {
    trimmed: NONE,
    missing: NONE,
    spelled: NONE,
    rounded: NONE,
    dated: NONE,
    padded: NONE,
};

/// Whether this text is written of an export, and this is told.
pub(crate) fn gives(
    alloc: Global,
    rules: &Rules<'_>,
    export: &[u8],
    text: &[u8],
    report: Report,
) -> bool {
    match prepare(alloc, rules, export, Vec::new(alloc)) {
        Ok((made, told)) => made.as_slice() == text && told == report,
        Err(_) => false,
    }
}

/// So many, the first in this line.
pub(crate) fn hits(count: u64, line: u64) -> Hits {
    Hits { count, line }
}

/// All records are written.
pub(crate) fn all(tally: Tally) -> Report {
    Report {
        tally,
        refusal: None,
    }
}

/// Two columns of which the second has numbers with two places at most.
const TWO: Rules<'static> = Rules {
    numbers: &[Column::Placed(2)],
    limit: Some(Limit {
        places: 2,
        rounds: false,
    }),
    ..PLAIN
};

/// The same, where a longer number is rounded.
const ROUNDED: Rules<'static> = Rules {
    limit: Some(Limit {
        places: 2,
        rounds: true,
    }),
    ..TWO
};

#[test]
fn long_numbers_are_rounded_half_to_even(rt: HostRuntime) {
    let tally = Tally {
        spelled: hits(2, 5),
        rounded: hits(4, 3),
        ..NOTHING
    };
    assert!(rt;
        gives(
            rt.alloc(),
            &ROUNDED,
            b"x,n\n1.23456,1.25\n1.23456,0.125\n,0.135\n,1.2500\n,-0.001\n,.5\n,9.995\n",
            b"x,n\n1.23456,1.25\n1.23456,0.12\n,0.14\n,1.25\n,0.00\n,0.5\n,10.00\n",
            all(tally)
        )
    );
}

#[test]
fn long_numbers_are_refused(rt: HostRuntime) {
    let report = Report {
        tally: Tally {
            spelled: hits(1, 2),
            ..NOTHING
        },
        refusal: Some(Refusal {
            number: 3,
            line: Some(4),
            cause: Cause::LongNumber { column: 1 },
        }),
    };
    let turned = Rules {
        columns: &[Column::Placed(2), Column::Placed(1)],
        ..TWO
    };
    let export = b"x,n\n\"a\nb\",1.500\nc,1.255\nd,1.2\n";
    assert!(rt; gives(rt.alloc(), &turned, export, b"n,x\n1.50,\"a\nb\"\n", report));
    let text = b"x,n\n1.255,a 1.255\n";
    assert!(rt; gives(rt.alloc(), &TWO, text, text, all(NOTHING)));
}

#[test]
fn a_record_that_is_refused_is_not_told(rt: HostRuntime) {
    let rules = Rules {
        numbers: &[Column::Placed(1), Column::Placed(2)],
        trims: true,
        pads: true,
        ..TWO
    };
    let report = Report {
        tally: NOTHING,
        refusal: Some(Refusal {
            number: 2,
            line: Some(2),
            cause: Cause::LongNumber { column: 2 },
        }),
    };
    assert!(rt;
        gives(
            rt.alloc(),
            &rules,
            b"a,b,c\n +1,0.125\n",
            b"a,b,c\n",
            report
        )
    );
}

#[test]
fn what_each_rule_did(rt: HostRuntime) {
    let rules = Rules {
        delimiter: b';',
        has_names: false,
        numbers: &[Column::Placed(2)],
        missing: &["NA", ""],
        mark: Mark::Comma,
        parts: Some(b'.'),
        trims: true,
        pads: true,
        ..PLAIN
    };
    let tally = Tally {
        trimmed: hits(3, 1),
        missing: hits(2, 2),
        spelled: hits(2, 1),
        rounded: NONE,
        dated: NONE,
        padded: hits(1, 5),
    };
    assert!(rt;
        gives(
            rt.alloc(),
            &rules,
            b" a ;1.000\n\"b\nc\"; NA\nNA;NA\nd\n;7\ne ;0,5\n",
            b"c1,c2\na,1000\n\"b\nc\",\nNA,\nd,\n,7\ne,0.5\n",
            all(tally)
        )
    );
}
