// Texts whose columns are parted by runs of blanks.
use prepare_blanks::with_tabs;
use std::alloc::Global;
use std::process::Abort;

// Whether this becomes of a text, behind a byte order mark.
fn expect(rt: &impl Abort, alloc: Global, text: &[u8], tabs: &[u8]) {
    let made = with_tabs(alloc, b'"', text).expect(rt, "memory");
    assert!(rt; made.as_slice().starts_with(b"\xEF\xBB\xBF"));
    assert!(rt; &made.as_slice()[3..] == tabs);
}

#[test]
fn words_by_blanks(rt: HostRuntime) {
    let alloc = rt.alloc();
    expect(&rt, alloc, b"  a   b\n1 \t 2\t\n", b"a\tb\n1\t2\n");
    expect(
        &rt,
        alloc,
        b"a b\r\n \r \n\n1 2\r\r3  ",
        b"a\tb\n\n\n\n1\t2\n\n3",
    );
    expect(&rt, alloc, b"\xEF\xBB\xBF a b", b"a\tb");
    expect(&rt, alloc, b" \xEF\xBB\xBFa b", b"\xEF\xBB\xBFa\tb");
    expect(&rt, alloc, b"", b"");
    expect(&rt, alloc, b" \t", b"");
}

#[test]
fn words_in_quotes(rt: HostRuntime) {
    let alloc = rt.alloc();
    expect(&rt, alloc, b"\"New  York\" 8", b"\"New  York\"\t8");
    expect(
        &rt,
        alloc,
        b"1 \"a \"\" b\r\n c\" 2\n",
        b"1\t\"a \"\" b\r\n c\"\t2\n",
    );
    expect(
        &rt,
        alloc,
        b"\"a\"b  c\"d e\" \"\" f",
        b"\"a\"b\tc\"d\te\"\t\"\"\tf",
    );
    expect(
        &rt,
        alloc,
        b"x \"open  to\n the end",
        b"x\t\"open  to\n the end",
    );
}
