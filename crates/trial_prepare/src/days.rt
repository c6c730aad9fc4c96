// Columns of dates.
use crate::exports::PLAIN;
use crate::tallies::{NOTHING, all, gives, hits};
use prepare_rules::{Cause, Column, Order, Refusal, Report, Rules, Tally};

/// Two columns of which the first has dates.
const DAYS: Rules<'static> = Rules {
    dates: &[Column::Placed(1)],
    missing: &["NA"],
    ..PLAIN
};

/// The same, with the month before the day.
const MONTHS: Rules<'static> = Rules {
    order: Order::MonthFirst,
    ..DAYS
};

// A record is refused, before which only this was done.
fn refused(number: u64, line: u64, cause: Cause, tally: Tally) -> Report {
    Report {
        tally,
        refusal: Some(Refusal {
            number,
            line: Some(line),
            cause,
        }),
    }
}

#[test]
fn dates_are_written_by_year_month_and_day(rt: HostRuntime) {
    let tally = Tally {
        dated: hits(3, 2),
        missing: hits(1, 5),
        ..NOTHING
    };
    assert!(rt;
        gives(
            rt.alloc(),
            &DAYS,
            b"5.1.2026,x\n5.1.2026,5.1.2026\n05/01/2026,\n2026-01-05,\nNA,NA\n,y\n31-12-1999,\n",
            b"5.1.2026,x\n2026-01-05,5.1.2026\n2026-01-05,\n2026-01-05,\n,NA\n,y\n1999-12-31,\n",
            all(tally)
        )
    );
}

#[test]
fn the_month_stands_first(rt: HostRuntime) {
    let tally = Tally {
        dated: hits(1, 2),
        ..NOTHING
    };
    let no_date = refused(3, 3, Cause::NoDate { column: 1 }, tally);
    let export = b"d,x\n1/5/2026,1\n13/1/2026,2\n1/6/2026,3\n";
    assert!(rt; gives(rt.alloc(), &MONTHS, export, b"d,x\n2026-01-05,1\n", no_date));
    let tally = Tally {
        dated: hits(3, 2),
        ..NOTHING
    };
    let text = b"d,x\n2026-05-01,1\n2026-01-13,2\n2026-06-01,3\n";
    assert!(rt; gives(rt.alloc(), &DAYS, export, text, all(tally)));
}

#[test]
fn what_is_no_date_is_refused(rt: HostRuntime) {
    let turned = Rules {
        columns: &[Column::Placed(2), Column::Placed(1)],
        ..DAYS
    };
    let no_date = refused(2, 2, Cause::NoDate { column: 2 }, NOTHING);
    assert!(rt;
        gives(
            rt.alloc(),
            &turned,
            b"d,x\n30.2.2026,1\n",
            b"x,d\n",
            no_date
        )
    );
    assert!(rt;
        gives(
            rt.alloc(),
            &turned,
            b"d,x\n 5.1.2026,1\n",
            b"x,d\n",
            no_date
        )
    );
    let trims = Rules {
        trims: true,
        ..turned
    };
    let tally = Tally {
        trimmed: hits(1, 2),
        dated: hits(1, 2),
        ..NOTHING
    };
    let text = b"x,d\n1,2026-01-05\n";
    assert!(rt; gives(rt.alloc(), &trims, b"d,x\n 5.1.2026,1\n", text, all(tally)));
}

#[test]
fn columns_of_dates(rt: HostRuntime) {
    let lacks = Rules {
        dates: &[Column::Placed(1), Column::Named("D")],
        ..DAYS
    };
    let export = b"d,x\n1.2.2026,+1\n";
    let none = refused(1, 1, Cause::NoDates { word: 1 }, NOTHING);
    assert!(rt; gives(rt.alloc(), &lacks, export, b"", none));
    let both = Rules {
        numbers: &[Column::Placed(2), Column::Named("d")],
        ..DAYS
    };
    let twice = refused(1, 1, Cause::NumberAndDate { word: 0 }, NOTHING);
    assert!(rt; gives(rt.alloc(), &both, export, b"", twice));
    let each = Rules {
        numbers: &[Column::Named("x")],
        ..DAYS
    };
    let tally = Tally {
        spelled: hits(1, 2),
        dated: hits(1, 2),
        ..NOTHING
    };
    assert!(rt;
        gives(
            rt.alloc(),
            &each,
            export,
            b"d,x\n2026-02-01,1\n",
            all(tally)
        )
    );
}
