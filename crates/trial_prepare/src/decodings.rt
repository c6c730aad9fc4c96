// Bytes whose text Python's codecs give, and bytes that are of no text.
use prepare_decode::{BadBytes, Encoding, decode, encoding_of};
use std::alloc::Global;
use std::process::Abort;

// What is made of bytes.
fn decoded(
    rt: &impl Abort,
    alloc: Global,
    encoding: Encoding,
    bytes: &[u8],
) -> Result<Vec<u8>, BadBytes> {
    let bytes = Vec::from_slice(alloc, bytes).expect(rt, "memory");
    decode(alloc, encoding, bytes).expect(rt, "memory")
}

fn expect(rt: &impl Abort, alloc: Global, encoding: Encoding, bytes: &[u8], text: &str) {
    let is_same = match decoded(rt, alloc, encoding, bytes) {
        Ok(made) => made.as_slice() == text.as_bytes(),
        Err(_) => false,
    };
    assert!(rt; is_same);
}

// The text before the first byte that isn't of the encoding, and the place of this one.
fn expect_bad(
    rt: &impl Abort,
    alloc: Global,
    encoding: Encoding,
    bytes: &[u8],
    before: &str,
    at: usize,
) {
    let is_same = match decoded(rt, alloc, encoding, bytes) {
        Ok(_) => false,
        Err(bad) => bad.before.as_slice() == before.as_bytes() && bad.at == at,
    };
    assert!(rt; is_same);
}

#[test]
fn latin_1(rt: HostRuntime) {
    let encoding = Encoding::Latin1;
    expect(&rt, rt.alloc(), encoding, b"", "");
    expect(
        &rt,
        rt.alloc(),
        encoding,
        b"\x00a~\x7F\x80\x85\x9F\xA0\xE4\xFF",
        "\0a~\u{7F}\u{80}\u{85}\u{9F}\u{A0}\u{E4}\u{FF}",
    );
}

#[test]
fn windows_1252(rt: HostRuntime) {
    let encoding = Encoding::Windows1252;
    expect(
        &rt,
        rt.alloc(),
        encoding,
        b"\x80\x82\x83\x84\x85\x86\x87\x88\x89\x8A\x8B\x8C\x8E\x91\x92\x93\x94\x95\x96\x97\x98\x99\x9A\x9B\x9C\x9E\x9F",
        "\u{20AC}\u{201A}\u{0192}\u{201E}\u{2026}\u{2020}\u{2021}\u{02C6}\u{2030}\u{0160}\u{2039}\u{0152}\u{017D}\
        \u{2018}\u{2019}\u{201C}\u{201D}\u{2022}\u{2013}\u{2014}\
        \u{02DC}\u{2122}\u{0161}\u{203A}\u{0153}\u{017E}\u{0178}",
    );
    expect(
        &rt,
        rt.alloc(),
        encoding,
        b"a\x7F\xA0\xE4\xFF\n",
        "a\u{7F}\u{A0}\u{E4}\u{FF}\n",
    );
}

#[test]
fn bytes_that_windows_1252_leaves_unset(rt: HostRuntime) {
    let encoding = Encoding::Windows1252;
    for byte in [0x81, 0x8D, 0x8F, 0x90, 0x9D] {
        expect_bad(
            &rt,
            rt.alloc(),
            encoding,
            &[0x80, b'\n', byte, b'a'],
            "\u{20AC}\n",
            2,
        );
    }
}

#[test]
fn utf_16(rt: HostRuntime) {
    let encoding = Encoding::Utf16;
    expect(
        &rt,
        rt.alloc(),
        encoding,
        b"\xFF\xFEa\x00\xAC\x20\x3D\xD8\x00\xDE\n\x00",
        "\u{FEFF}a\u{20AC}\u{1F600}\n",
    );
    expect(
        &rt,
        rt.alloc(),
        encoding,
        b"\xFE\xFF\x00\xE9\xD8\x3D\xDE\x00\xD7\xFF\xE0\x00",
        "\u{FEFF}\u{E9}\u{1F600}\u{D7FF}\u{E000}",
    );
    expect(&rt, rt.alloc(), encoding, b"\xFF\xFE", "\u{FEFF}");
}

#[test]
fn no_utf_16(rt: HostRuntime) {
    let encoding = Encoding::Utf16;
    // no mark
    expect_bad(&rt, rt.alloc(), encoding, b"a\x00", "", 0);
    expect_bad(&rt, rt.alloc(), encoding, b"", "", 0);
    // the first of a pair alone, and at the end; the second of one alone; half of a unit
    expect_bad(
        &rt,
        rt.alloc(),
        encoding,
        b"\xFE\xFF\x00a\xD8\x3D\x00a",
        "\u{FEFF}a",
        4,
    );
    expect_bad(
        &rt,
        rt.alloc(),
        encoding,
        b"\xFE\xFF\xD8\x3D",
        "\u{FEFF}",
        2,
    );
    expect_bad(
        &rt,
        rt.alloc(),
        encoding,
        b"\xFE\xFF\xDE\x00\x00a",
        "\u{FEFF}",
        2,
    );
    expect_bad(
        &rt,
        rt.alloc(),
        encoding,
        b"\xFF\xFEa\x00\n",
        "\u{FEFF}a",
        4,
    );
    // behind a pair, of four bytes
    expect_bad(
        &rt,
        rt.alloc(),
        encoding,
        b"\xFE\xFF\xD8\x3D\xDE\x00\xDF\xFF",
        "\u{FEFF}\u{1F600}",
        6,
    );
}

#[test]
fn utf_8(rt: HostRuntime) {
    let encoding = Encoding::Utf8;
    expect(
        &rt,
        rt.alloc(),
        encoding,
        b"\xEF\xBB\xBFa\xC3\xA4",
        "\u{FEFF}a\u{E4}",
    );
    expect_bad(
        &rt,
        rt.alloc(),
        encoding,
        b"a\n\xC3\xA4\xE4b",
        "a\n\u{E4}",
        4,
    );
    expect_bad(&rt, rt.alloc(), encoding, b"ab\xE2\x82", "ab", 2);
}

#[test]
fn encodings(rt: HostRuntime) {
    assert!(rt; encoding_of(b"\xFF\xFEa\x00") == Encoding::Utf16);
    assert!(rt; encoding_of(b"\xFE\xFF") == Encoding::Utf16);
    assert!(rt; encoding_of(b"a,b\n1,2\n") == Encoding::Utf8);
    assert!(rt; encoding_of(b"\xC3\xA4\n") == Encoding::Utf8);
    assert!(rt; encoding_of(b"\xE4\n") == Encoding::Latin1);
    assert!(rt; encoding_of(b"\xE4\x80\n") == Encoding::Windows1252);
    assert!(rt; encoding_of(b"\xE4\x80\n\x81") == Encoding::Latin1);
}

#[test]
fn what_is_said(rt: HostRuntime) {
    let bad = BadBytes {
        at: 4,
        before: Vec::new(rt.alloc()),
    };
    let said = format!(in rt.alloc(); "{}: {bad}", Encoding::Windows1252).expect(&rt, "memory");
    assert!(rt; said.as_bytes() == "Windows-1252: byte 5 isn't of the encoding".as_bytes());
}
