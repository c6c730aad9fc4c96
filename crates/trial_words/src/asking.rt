// The words of coop_inspect: those of its manual, and words on the edges of its rules.
use crate::words::words_of;
use command_words::{Layout, PolicyName, Request};
use inspect_words::{Asked, Form, Window, asked_of};
use std::alloc::Global;
use std::test::Fail;

const USUAL: Request<'static> = Request {
    workers: 4,
    frames: None,
    per: 1024,
    layout: Layout::Row,
    parts: 1,
    scratch: None,
    policy: PolicyName::Relevance,
    summary: false,
    trace: false,
    compare: false,
    table: "a",
    batch: "b",
};

// Words, and what they ask for.
const GIVEN: &[(&str, Asked<'static>)] = &[
    ("explain|a|b", Asked::Explain { run: USUAL }),
    (
        "explain|--layout=column|a|--rows|2|b",
        Asked::Explain {
            run: Request {
                per: 2,
                layout: Layout::Column,
                ..USUAL
            },
        },
    ),
    (
        "judge|--threads|8|a|--policy=attach|b|--trace|--summary|out",
        Asked::Judge {
            run: Request {
                workers: 8,
                policy: PolicyName::Attach,
                summary: true,
                trace: true,
                ..USUAL
            },
            output: "out",
        },
    ),
    (
        "judge|--story|a|b",
        Asked::Story {
            setting: "a",
            story: "b",
            choices: false,
            dealing: false,
        },
    ),
    (
        "judge|--story|--policy|any|a|--dealt=any|b",
        Asked::Story {
            setting: "a",
            story: "b",
            choices: true,
            dealing: true,
        },
    ),
    (
        "judge|--story|a|b|--dealt|any",
        Asked::Story {
            setting: "a",
            story: "b",
            choices: false,
            dealing: true,
        },
    ),
    (
        "setting|--threads|8|a|--policy=attach|b|--trace",
        Asked::Setting {
            run: Request {
                workers: 8,
                policy: PolicyName::Attach,
                trace: true,
                ..USUAL
            },
        },
    ),
    (
        "draw|out",
        Asked::Draw {
            output: "out",
            window: Window::WHOLE,
            form: Form::Picture,
        },
    ),
    (
        "draw|--to=4294967295|--|-out",
        Asked::Draw {
            output: "-out",
            window: Window {
                from: None,
                to: Some(4294967295),
            },
            form: Form::Picture,
        },
    ),
    (
        "draw|out|--to|9|--html|--from|9",
        Asked::Draw {
            output: "out",
            window: Window {
                from: Some(9),
                to: Some(9),
            },
            form: Form::Page,
        },
    ),
];

// Words that are refused, the status, and a piece of the text, in which the word stands.
const REFUSED: &[(&str, u8, &str)] = &[
    ("--version", 0, "coop_inspect 2026-12-02"),
    ("judge|--version", 0, "2026-12-02"),
    ("explain|-V", 0, "2026-12-02"),
    ("draw|--version", 0, "2026-12-02"),
    ("judge|--help", 0, "--threads <N>"),
    ("explain|--help", 0, "Usage: coop_inspect explain "),
    ("judge|--help", 0, "Usage: coop_inspect judge "),
    ("setting|--help", 0, "Usage: coop_inspect setting "),
    (
        "judge|--story|--help",
        0,
        "Usage: coop_inspect judge --story [OPTIONS] <SETTING> <STORY>",
    ),
    ("judge|--story|--version", 0, "2026-12-02"),
    ("judge|--story|a", 2, "<STORY>"),
    ("judge|--story|a|b|out", 2, "'out'"),
    ("judge|--story|--threads|2|a|b", 2, "'--threads'"),
    (
        "judge|--story|--policy|normal|a|b",
        2,
        "--policy takes any alone, and 'normal' stands there",
    ),
    (
        "judge|--story|a|b|--dealt=",
        2,
        "--dealt takes any alone, and '' stands there",
    ),
    ("judge|a|--story|b|out", 2, "'--story'"),
    ("judge|--policy|any|a|b|out", 2, "'any' for --policy"),
    ("judge|--dealt|any|a|b|out", 2, "'--dealt'"),
    ("setting|a", 2, "<BATCH>"),
    ("setting|a|b|out", 2, "'out'"),
    ("setting|--compare|a|b", 2, "'--compare'"),
    ("setting|--threads|+2|a|b", 2, "'+2' for --threads"),
    ("setting|a|", 2, "word 3 is ''"),
    (
        "draw|--help",
        0,
        "Usage: coop_inspect draw [OPTIONS] <OUTPUT>",
    ),
    ("explode|a|b", 2, "'explode'"),
    ("explain|--threads|2|a|b", 2, "'--threads'"),
    ("explain|a", 2, "<BATCH>"),
    ("judge|--threads|33|a|b|out", 2, "'33'"),
    ("judge|a|b|out|extra", 2, "'extra'"),
    ("judge|--policy|best|a|b|out", 2, "'best'"),
    ("judge|--compare|a|b|out", 2, "'--compare'"),
    ("explain|gen:x|b", 2, "'gen:x'"),
    ("draw", 2, "<OUTPUT>"),
    ("draw|--from|0|out", 2, "'0' for '--from <N>'"),
    ("draw|--to|4294967296|out", 2, "'4294967296' for '--to <N>'"),
    ("draw|--from|x|out", 2, "'x' for '--from <N>'"),
    ("draw|--html=page|out", 2, "'page' for '--html'"),
    ("judge|--html|a|b|out", 2, "'--html'"),
    (
        "draw|--from|10|--to|9|out",
        2,
        "--from 10 lies behind --to 9",
    ),
    ("explain|--rows|+2|a|b", 2, "'+2' for --rows"),
    ("judge|--threads|+2|a|b|out", 2, "'+2' for --threads"),
    (
        "judge|--frames|00000000016|a|b|out",
        2,
        "'00000000016' for --frames",
    ),
    ("judge|--parts|+1|a|b|out", 2, "'+1' for --parts"),
    ("judge|--scratch=|a|b|out", 2, "'' for --scratch"),
    ("judge|a||out", 2, "word 3 is ''"),
    ("explain|a|-", 2, "word 3 is '-'"),
    ("explain|--layout|-|a|b", 2, "word 3 is '-'"),
    ("judge|a|b|out|--summary", 2, "and '--summary' stands there"),
    ("judge|a|b|out|--threads|2", 2, "and '2' stands there"),
];

#[test]
fn words_ask_for_what_the_manual_says(rt: HostRuntime) -> Result<(), Fail> {
    for (line, asked) in GIVEN {
        let words = words_of(rt.alloc(), line)?;
        let is_same = match asked_of(rt.alloc(), &words) {
            Ok(found) => found == *asked,
            Err(_) => false,
        };
        assert!(rt; is_same, "{line}");
    }
    Ok(())
}

#[test]
fn faulty_words_are_named(rt: HostRuntime) -> Result<(), Fail> {
    for (line, status, piece) in REFUSED {
        let words = words_of(rt.alloc(), line)?;
        let Err(refused) = asked_of(rt.alloc(), &words) else {
            panic!(rt; "{line}");
        };
        let text = format!(in rt.alloc(); "{refused}")?;
        assert!(rt;
            refused.status() == *status && text.as_str().contains(*piece),
            "{line}: {text}"
        );
    }
    Ok(())
}
