// What is seen and guessed of exports.
use prepare_decode::Encoding;
use prepare_look::{Kind, kind_of};
use prepare_page::{look_at, page_of, tabs_in};
use std::alloc::Global;
use std::process::Abort;

// The page of a text, for a file of this name.
fn page(rt: &impl Abort, alloc: Global, file: &str, encoding: Encoding, text: &str) -> String {
    let look = look_at(alloc, text.as_bytes()).expect(rt, "look");
    let page = page_of(alloc, file, encoding, false, text.as_bytes(), &look).expect(rt, "page");
    format!(in alloc; "{page}").expect(rt, "memory")
}

#[test]
fn semicolons_and_decimal_commas(rt: HostRuntime) {
    let export = "day;region;amount\n05.01.2026;north;1.204,50\n06.01.2026;south;99,75\n";
    let told = "file pay.csv: UTF-8, 3 line ends\n\
        delimiter ';': 3 of 3 records have 3 fields\n\
        names: in line 1\n\
        column 1 \"day\": 2 dates, the day or the month first\n\
        column 2 \"region\": 2 texts\n\
        column 3 \"amount\": 1 with a decimal comma; 1 with points between thousands, the first in line 2\n\
        needed: --delimiter, since coop_cli takes commas\n\
        needed: --numbers, since these columns are read as texts else\n\
        \n\
        ./coop_prepare write --delimiter ';' --numbers 3 --decimal-comma --thousands . pay.csv\n";
    let page = page(&rt, rt.alloc(), "pay.csv", Encoding::Utf8, export);
    assert!(rt; page.as_bytes() == told.as_bytes());
}

// The page of a text whose columns blanks part; none where they don't.
fn page_by_blanks(rt: &impl Abort, alloc: Global, file: &str, text: &str) -> Option<String> {
    let guess = look_at(alloc, text.as_bytes()).expect(rt, "look").guess;
    let tabs = tabs_in(alloc, text.as_bytes(), guess).expect(rt, "tabs")?;
    let look = look_at(alloc, tabs.as_slice()).expect(rt, "look");
    let page = page_of(alloc, file, Encoding::Utf8, true, tabs.as_slice(), &look).expect(
        rt, "page",
    );
    Some(format!(in alloc; "{page}").expect(rt, "memory"))
}

#[test]
fn columns_by_blanks(rt: HostRuntime) {
    let export = "  city   people\n\"New York\"  8335897\n\n  Oslo  NA\n";
    let told = "file cities.txt: UTF-8, 4 line ends\n\
        delimiter blanks: 3 of 3 records have 2 fields\n\
        names: in line 1\n\
        column 1 \"city\": 2 texts\n\
        column 2 \"people\": 1 whole; 1 marked as missing, the first in line 4\n\
        needed: --delimiter, since coop_cli takes commas\n\
        needed: --numbers, since these columns are read as texts else\n\
        \n\
        ./coop_prepare write --delimiter blanks --numbers 2 --missing=NA cities.txt\n";
    match page_by_blanks(&rt, rt.alloc(), "cities.txt", export) {
        Some(page) => assert!(rt; page.as_bytes() == told.as_bytes()),
        None => assert!(rt; false),
    }
}

#[test]
fn columns_by_something_else(rt: HostRuntime) {
    let alloc = rt.alloc();
    let none = |text: &str| page_by_blanks(&rt, alloc, "x", text).is_none();
    assert!(rt; none("a b\n1 2;3\n4 5\n"));
    assert!(rt; none("a b\n1 2\n4 5 6\n"));
    assert!(rt; none("two words\nand two\n"));
    assert!(rt; none("1 2\n"));
    assert!(rt; none("1\n2\n"));
    assert!(rt; !none("1 2\n\n3 4\n"));
}

#[test]
fn an_encoding_is_asked_for(rt: HostRuntime) {
    let told = "file 'a b.csv': Latin-1, 2 line ends\n\
        delimiter ',': 2 of 2 records have 2 fields\n\
        names: in line 1\n\
        column 1 \"g\u{FC}te\": 1 texts\n\
        column 2 \"n\": 1 whole\n\
        needed: --encoding, since the text isn't UTF-8\n\
        \n\
        ./coop_prepare write --encoding latin-1 'a b.csv'\n";
    let page = page(
        &rt,
        rt.alloc(),
        "a b.csv",
        Encoding::Latin1,
        "g\u{FC}te,n\nx,1\n",
    );
    assert!(rt; page.as_bytes() == told.as_bytes());
}

#[test]
fn rounding_is_asked_for(rt: HostRuntime) {
    let export =
        "id,rate,mass,note\n1,0.1234567891,1,0.1234567891\n2,NA,1.5e3,x\n3,.5,NA,\n4,2,0.00000000001,y\n";
    let told = "file x.csv: UTF-8, 5 line ends\n\
        delimiter ',': 5 of 5 records have 4 fields\n\
        names: in line 1\n\
        column 1 \"id\": 4 whole\n\
        column 2 \"rate\": 1 whole; 1 with more than 9 places, the first in line 2; \
        1 as .5 or 5., the first in line 4; 1 marked as missing, the first in line 3\n\
        column 3 \"mass\": 1 whole; 1 with more than 9 places, the first in line 5; \
        1 with an exponent, the first in line 3; 1 marked as missing, the first in line 4\n\
        column 4 \"note\": 2 texts; 1 with more than 9 places, the first in line 2; 1 empty, the first in line 4\n\
        to be asked for: --places 9 --round, since columns have numbers with more places, which are rounded: 2,3\n\
        \n\
        ./coop_prepare write x.csv\n\
        and with what has to be asked for:\n\
        ./coop_prepare write --numbers 2,3 --missing=NA --exponents --places 9 --round x.csv\n";
    let page = page(&rt, rt.alloc(), "x.csv", Encoding::Utf8, export);
    assert!(rt; page.as_bytes() == told.as_bytes());
}

#[test]
fn powers_of_ten(rt: HostRuntime) {
    let fields = [
        ("1.5e3", Kind::Exponent),
        ("-2.5E+2", Kind::Exponent),
        ("0.000000000000000000e+00", Kind::Exponent),
        ("1e-9", Kind::Exponent),
        ("1e-10", Kind::FarExponent),
        ("1.000e-09", Kind::Exponent),
        ("1.500e-09", Kind::FarExponent),
        ("1.0e18", Kind::Exponent),
        ("1.0e19", Kind::FarExponent),
        ("1e-1000", Kind::FarExponent),
        ("1.e5", Kind::Text),
        ("12E4", Kind::Text),
    ];
    for (field, kind) in &fields {
        assert!(rt; kind_of(field.as_bytes()) == *kind, "{field}");
    }
}

#[test]
fn numbers_of_programs(rt: HostRuntime) {
    let export = "id,share,mass,far\n1,.5,1.5e3,1e-12\n2,NA,2.5000000000,1.25\n";
    let told = "file x.csv: UTF-8, 3 line ends\n\
        delimiter ',': 3 of 3 records have 4 fields\n\
        names: in line 1\n\
        column 1 \"id\": 2 whole\n\
        column 2 \"share\": 1 as .5 or 5.; 1 marked as missing, the first in line 3\n\
        column 3 \"mass\": 1 with zeros past the ninth place; 1 with an exponent, the first in line 2\n\
        column 4 \"far\": 1 with a decimal point; \
        1 with an exponent above 18 or more than 9 places, the first in line 2\n\
        needed: --numbers, since these columns are read as texts else\n\
        to be asked for: --places 9 --round, since columns have numbers with more places, which are rounded: 4\n\
        \n\
        ./coop_prepare write --numbers 2,3 --missing=NA --exponents --places 9 x.csv\n\
        and with what has to be asked for:\n\
        ./coop_prepare write --numbers 2,3,4 --missing=NA --exponents --places 9 --round x.csv\n";
    let page = page(&rt, rt.alloc(), "x.csv", Encoding::Utf8, export);
    assert!(rt; page.as_bytes() == told.as_bytes());
}

// The lines of a page from the first that says what is needed or has to be asked for.
fn expect_needs(rt: &impl Abort, alloc: Global, export: &str, told: &str) {
    let page = page(rt, alloc, "x.csv", Encoding::Utf8, export);
    assert!(rt; page.ends_with(told), "{page}");
}

#[test]
fn equal_names(rt: HostRuntime) {
    expect_needs(
        &rt,
        rt.alloc(),
        "Sales\nrate,rate,,rate,n o,rate_4\n1,2,x,3,4,.5\n1,2,y,3,4,.5\n",
        "needed: --skip, since 1 record stand above the table\n\
        needed: --skip, --no-header and --rename, since columns have one name in line 2\n\
        needed: --numbers, since these columns are read as texts else\n\
        \n\
        ./coop_prepare write --skip 2 --no-header --rename c1=rate --rename c2=rate_2 --rename c5='n o' \
        --rename c6=rate_4 --numbers 6 x.csv\n",
    );
    expect_needs(&rt, rt.alloc(), "a,a\n", "\n./coop_prepare write x.csv\n");
}

#[test]
fn rows_with_names(rt: HostRuntime) {
    expect_needs(
        &rt,
        rt.alloc(),
        "pig,weight\na,1,.5\nb,2,NA\n",
        "column 1: 2 texts\n\
        column 2 \"pig\": 2 whole\n\
        column 3 \"weight\": 1 as .5 or 5.; 1 marked as missing, the first in line 3\n\
        to be asked for: --rename, since records have one field more than names: those of rows\n\
        \n\
        ./coop_prepare write x.csv\n\
        and with what has to be asked for:\n\
        ./coop_prepare write --skip 1 --no-header --rename c2=pig --rename c3=weight --numbers 3 --missing=NA x.csv\n",
    );
    expect_needs(
        &rt,
        rt.alloc(),
        "pig,weight\na,1,\nb,2,\n",
        "no rule: 2 records from line 2 on have more fields than the first, and are refused\n\
        \n\
        ./coop_prepare write x.csv\n",
    );
}

#[test]
fn dates_and_blanks(rt: HostRuntime) {
    expect_needs(
        &rt,
        rt.alloc(),
        "day,due,paid,short,n\n5.1.2026,1/31/2026,3.4.2026,31.1.26, 1\n\
        31.1.2026,2/1/2026,NA,1.2.26,2\n?,,13.1.2026,,3\n",
        "to be asked for: --dates, since columns have dates, the day first; texts have another order: 1,3\n\
        to be asked for: --trim, since 1 columns have white space at ends; it acts in texts too\n\
        \n\
        ./coop_prepare write x.csv\n\
        and with what has to be asked for:\n\
        ./coop_prepare write --dates dmy --date-columns 1,3 --missing='?' --missing=NA --trim x.csv\n",
    );
    expect_needs(
        &rt,
        rt.alloc(),
        "a,b\n1/31/2026,31/1/2026\n30.30.2026,1/1/2026\n",
        "to be asked for: --dates, since columns have dates, the day first; texts have another order: 2\n\
        \n\
        ./coop_prepare write x.csv\n\
        and with what has to be asked for:\n\
        ./coop_prepare write --dates dmy --date-columns 2 x.csv\n",
    );
    expect_needs(
        &rt,
        rt.alloc(),
        "a\tb\n1/31/2026\tx\n2/30/2026\ty\n",
        "needed: --delimiter, since coop_cli takes commas\n\
        \n\
        ./coop_prepare write --delimiter tab x.csv\n",
    );
}
