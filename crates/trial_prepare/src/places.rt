// Numbers with more digits behind the point than may be; what they become is Python's, by `decimal` and
// ROUND_HALF_EVEN.
use prepare_numbers::{Fit, Form, Limit, push_within, spelling_of};
use std::alloc::Global;
use std::process::Abort;

/// Numbers with a point and perhaps a power of ten.
const POINT: Form = Form {
    mark: b'.',
    parts: None,
    exponents: true,
};

// How the number of a field fits so many places, and what is put behind a text.
fn fits(alloc: Global, places: u8, rounds: bool, field: &[u8], fit: Fit, text: &[u8]) -> bool {
    let Some(spelling) = spelling_of(POINT, field) else {
        return false;
    };
    let mut digits = Vec::new(alloc);
    let mut made = Vec::new(alloc);
    let limit = Limit { places, rounds };
    match push_within(&spelling, limit, &mut digits, &mut made) {
        Ok(found) => found == fit && made.as_slice() == text,
        Err(_) => false,
    }
}

fn rounds(rt: &impl Abort, alloc: Global, places: u8, field: &[u8], text: &[u8]) {
    assert!(rt; fits(alloc, places, true, field, Fit::Rounded, text));
    assert!(rt; fits(alloc, places, false, field, Fit::TooLong, b""));
}

fn keeps(rt: &impl Abort, alloc: Global, places: u8, field: &[u8], text: &[u8]) {
    assert!(rt; fits(alloc, places, true, field, Fit::Whole, text));
    assert!(rt; fits(alloc, places, false, field, Fit::Whole, text));
}

#[test]
fn halves_go_to_the_even_digit(rt: HostRuntime) {
    let alloc = rt.alloc();
    rounds(&rt, alloc, 2, b"0.125", b"0.12");
    rounds(&rt, alloc, 2, b"0.135", b"0.14");
    rounds(&rt, alloc, 2, b"0.12500001", b"0.13");
    rounds(&rt, alloc, 2, b"-2.675", b"-2.68");
    rounds(&rt, alloc, 0, b"0.5", b"0");
    rounds(&rt, alloc, 0, b"1.5", b"2");
    rounds(&rt, alloc, 0, b"2.5", b"2");
}

#[test]
fn one_more_goes_on_over_nines(rt: HostRuntime) {
    let alloc = rt.alloc();
    rounds(&rt, alloc, 2, b"9.995", b"10.00");
    rounds(&rt, alloc, 0, b"999.6", b"1000");
    rounds(&rt, alloc, 9, b"0.9999999996", b"1.000000000");
    rounds(&rt, alloc, 9, b"0.1234567894", b"0.123456789");
}

#[test]
fn what_is_near_zero_has_no_minus(rt: HostRuntime) {
    let alloc = rt.alloc();
    rounds(&rt, alloc, 2, b"-0.004", b"0.00");
    rounds(&rt, alloc, 9, b"-5e-10", b"0.000000000");
    rounds(&rt, alloc, 9, b"-6e-10", b"-0.000000001");
}

#[test]
fn numbers_that_fit_stay(rt: HostRuntime) {
    let alloc = rt.alloc();
    keeps(&rt, alloc, 9, b"0.123456789", b"0.123456789");
    keeps(&rt, alloc, 2, b"1.5", b"1.5");
    keeps(&rt, alloc, 2, b"1.25000", b"1.25");
    keeps(&rt, alloc, 0, b"-7.000", b"-7");
    keeps(&rt, alloc, 0, b"1.5e1", b"15");
}
