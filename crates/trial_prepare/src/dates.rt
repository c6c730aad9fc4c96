// Fields, and the dates that they are.
use prepare_dates::{Order, date_of, text_of};
use std::process::Abort;

// Whether the field is no date in this order.
fn is_none(order: Order, field: &str) -> bool {
    date_of(order, field.as_bytes()).is_none()
}

// The field is a date in this order, and this is written of it.
fn expect(rt: &impl Abort, order: Order, field: &str, text: &str) {
    let date = date_of(order, field.as_bytes()).expect(rt, "a date");
    assert!(rt; text_of(date).as_slice() == text.as_bytes());
}

#[test]
fn orders(rt: HostRuntime) {
    expect(&rt, Order::DayFirst, "5.1.2026", "2026-01-05");
    expect(&rt, Order::MonthFirst, "5.1.2026", "2026-05-01");
    expect(&rt, Order::DayFirst, "31/12/1999", "1999-12-31");
    expect(&rt, Order::MonthFirst, "12/31/1999", "1999-12-31");
    expect(&rt, Order::DayFirst, "05-01-0007", "0007-01-05");
    expect(&rt, Order::MonthFirst, "05-01-2026", "2026-05-01");
    assert!(rt; is_none(Order::DayFirst, "12/31/1999"));
    assert!(rt; is_none(Order::MonthFirst, "31/12/1999"));
}

#[test]
fn year_first(rt: HostRuntime) {
    expect(&rt, Order::DayFirst, "2026-01-05", "2026-01-05");
    expect(&rt, Order::MonthFirst, "2026-01-05", "2026-01-05");
    for field in [
        "2026-1-5",
        "2026/01/05",
        "2026.01.05",
        "2026-13-01",
        "2026-02-29",
    ] {
        assert!(rt; is_none(Order::DayFirst, field));
        assert!(rt; is_none(Order::MonthFirst, field));
    }
}

#[test]
fn days_of_months(rt: HostRuntime) {
    expect(&rt, Order::DayFirst, "29.2.2000", "2000-02-29");
    expect(&rt, Order::DayFirst, "29.2.2024", "2024-02-29");
    expect(&rt, Order::DayFirst, "30.4.2026", "2026-04-30");
    for field in [
        "29.2.1900",
        "29.2.2023",
        "30.2.2024",
        "31.4.2026",
        "32.1.2026",
        "0.1.2026",
    ] {
        assert!(rt; is_none(Order::DayFirst, field));
    }
    for field in ["1.13.2026", "1.0.2026"] {
        assert!(rt; is_none(Order::DayFirst, field));
    }
}

#[test]
fn no_dates(rt: HostRuntime) {
    for field in [
        "",
        ".",
        "5.1",
        "5.1.",
        "5.1.26",
        "5.1.02026",
        "005.1.2026",
        "5.1/2026",
        "5 1 2026",
        "5.1.2026 ",
        "-5.1.2026",
        "5.1.2026.",
        "5.1.2026.7",
        "5.+1.2026",
        "5..2026",
        "NA",
    ] {
        assert!(rt; is_none(Order::DayFirst, field));
        assert!(rt; is_none(Order::MonthFirst, field));
    }
}
