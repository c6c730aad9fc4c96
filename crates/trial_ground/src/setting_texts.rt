// The text of a setting: read, written back, and refused at the first line that stands in the way.
use scan_story::PolicyName;
use setting_text::{HeadRule, NeedRule, PlainSetting, SettingFault, read_setting, write_setting};
use std::alloc::Global;
use std::process::Abort;

// Two queries on two workers over three chunks, in the column layout of two columns.
const TWO_QUERIES: &str = "workers 2 frames 14 chunks 3 groups 2 policy normal
query 1 worker 0 chunks 0,1,2 columns 0,1
query 2 worker 1 chunks - columns 1
";

// A setting in which choices are free, and no query is asked.
const NO_QUERY: &str = "workers 32 frames 1552 chunks 1024 groups 16 policy any\n";

fn read(rt: &impl Abort, alloc: Global, text: &str) -> PlainSetting {
    read_setting(alloc, text.as_bytes()).expect(rt, "a setting")
}

fn is_written(alloc: Global, setting: &PlainSetting, text: &str) -> bool {
    match write_setting(alloc, setting) {
        Ok(written) => written.as_slice() == text.as_bytes(),
        Err(_) => false,
    }
}

#[test]
fn a_setting_is_read_and_written_back(rt: HostRuntime) {
    let two = read(&rt, rt.alloc(), TWO_QUERIES);
    assert!(rt; two.head.workers == 2 && two.head.policy == Some(PolicyName::Normal));
    assert!(rt; two.needs.len() == 2 && two.needs[1].worker == 1);
    assert!(rt; two.needs[0].chunks.len() == 3 && two.needs[1].chunks.len() == 0);
    assert!(rt; is_written(rt.alloc(), &two, TWO_QUERIES));
    let none = read(&rt, rt.alloc(), NO_QUERY);
    assert!(rt; none.head.policy.is_none() && none.needs.len() == 0);
    assert!(rt; is_written(rt.alloc(), &none, NO_QUERY));
}

// A text, and the first that stands in the way of it.
type Faulty<'a> = (&'a str, SettingFault);

const HEAD: &str = "workers 2 frames 14 chunks 3 groups 2 policy normal\n";

// What follows the head, and its fault.
const FAULTY_QUERIES: [Faulty<'static>; 14] = [
    (
        "query 0 worker 0 chunks 0 columns 0\n",
        SettingFault::Query {
            line: 2,
            rule: NeedRule::Number,
        },
    ),
    (
        "query 257 worker 0 chunks 0 columns 0\n",
        SettingFault::Query {
            line: 2,
            rule: NeedRule::Number,
        },
    ),
    (
        "query 1 worker 0 chunks 0 columns 0\nquery 1 worker 1 chunks 1 columns 0\n",
        SettingFault::Query {
            line: 3,
            rule: NeedRule::Once,
        },
    ),
    (
        "query 1 worker 2 chunks 0 columns 0\n",
        SettingFault::Query {
            line: 2,
            rule: NeedRule::Worker,
        },
    ),
    (
        "query 1 worker 0 chunks 1,0 columns 0\n",
        SettingFault::Query {
            line: 2,
            rule: NeedRule::ChunksRise,
        },
    ),
    (
        "query 1 worker 0 chunks 0,3 columns 0\n",
        SettingFault::Query {
            line: 2,
            rule: NeedRule::Chunks,
        },
    ),
    (
        "query 1 worker 0 chunks 0 columns 1,1\n",
        SettingFault::Query {
            line: 2,
            rule: NeedRule::ColumnsRise,
        },
    ),
    (
        "query 1 worker 0 chunks 0 columns 2\n",
        SettingFault::Query {
            line: 2,
            rule: NeedRule::Columns,
        },
    ),
    (
        "query 1 worker 0 chunks 0 columns -\n",
        SettingFault::Query {
            line: 2,
            rule: NeedRule::Columns,
        },
    ),
    (
        "query 1 worker 0 chunks 0 columns 0\nscan 2 worker 0 chunks 0 columns 0\n",
        SettingFault::NoQuery { line: 3 },
    ),
    (
        "query 01 worker 0 chunks 0 columns 0\n",
        SettingFault::NoQuery { line: 2 },
    ),
    (
        "query 1 worker 0 chunks 0, columns 0\n",
        SettingFault::NoQuery { line: 2 },
    ),
    (
        "query 1 worker 0 chunks 0 columns 0",
        SettingFault::NoQuery { line: 2 },
    ),
    (
        "query 1 worker 9 chunks 0 columns 0\n\n",
        SettingFault::Query {
            line: 2,
            rule: NeedRule::Worker,
        },
    ),
];

const FAULTY_HEADS: [Faulty<'static>; 12] = [
    ("", SettingFault::NoHead),
    (
        "workers 1 frames 4 chunks 3 groups 1 policy normal",
        SettingFault::NoHead,
    ),
    (
        "workers 1 chunks 3 frames 4 groups 1 policy normal\n",
        SettingFault::NoHead,
    ),
    (
        "workers 1 frames 4 chunks 3 groups 1 policy lru\n",
        SettingFault::NoHead,
    ),
    (
        "workers 1 frames 4 chunks 3 groups 4294967296 policy any\n",
        SettingFault::NoHead,
    ),
    ("\u{fffd}\n", SettingFault::NoHead),
    (
        "workers 0 frames 4 chunks 3 groups 1 policy any\n",
        SettingFault::Head(HeadRule::Workers),
    ),
    (
        "workers 33 frames 400 chunks 3 groups 1 policy any\n",
        SettingFault::Head(HeadRule::Workers),
    ),
    (
        "workers 1 frames 4 chunks 1025 groups 1 policy any\n",
        SettingFault::Head(HeadRule::Chunks),
    ),
    (
        "workers 1 frames 4 chunks 3 groups 17 policy any\n",
        SettingFault::Head(HeadRule::Groups),
    ),
    (
        "workers 1 frames 7 chunks 3 groups 2 policy any\n",
        SettingFault::Head(HeadRule::FewFrames),
    ),
    (
        "workers 1 frames 33554433 chunks 3 groups 2 policy any\n",
        SettingFault::Head(HeadRule::ManyFrames),
    ),
];

fn is_refused(alloc: Global, text: &str, fault: SettingFault) -> bool {
    match read_setting(alloc, text.as_bytes()) {
        Ok(_) => false,
        Err(found) => found == fault,
    }
}

#[test]
fn the_first_fault_of_a_setting_is_named(rt: HostRuntime) {
    for (text, fault) in FAULTY_HEADS {
        assert!(rt; is_refused(rt.alloc(), text, fault), "{text}");
    }
    for (queries, fault) in FAULTY_QUERIES {
        let text = format!(in rt.alloc(); "{HEAD}{queries}").expect(&rt, "memory");
        assert!(rt; is_refused(rt.alloc(), text.as_str(), fault), "{queries}");
    }
}

#[test]
fn a_binary_setting_is_refused(rt: HostRuntime) {
    let bytes: [u8; 4] = [0, 255, 10, 128];
    let fault = read_setting(rt.alloc(), bytes.as_slice()).err();
    assert!(rt; fault == Some(SettingFault::NoHead));
}
