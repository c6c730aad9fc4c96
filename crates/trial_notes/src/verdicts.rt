// Verdicts on outputs of one small run.
ghost use Rattle.std.specs.Prelude.{◌≤◌, ◌^◌, length};

use command_words::Call;
use coop_outside::{Bytes, MemShelf};
use inspect_referee::{Counts, Reason, Rule};
use inspect_verdict::{Parting, Verdict, inputs_can_run, verdict_of};
use run_inputs::{inputs_of, request_in};
use scan_story::PolicyName;
use std::alloc::Global;
use std::hash::RandomState;
use std::process::Abort;
use std::random::RandomSource;
use std::test::Fail;
use std::thread::Threads;

const TABLE: &[u8] = b"a\n1\n2\n";

const BATCH: &[u8] = b"SELECT COUNT(*) FROM t;\n";

// Puts a file behind others.
fn put(
    alloc: Global,
    files: &mut Vec<(String, Bytes)>,
    name: &str,
    text: &[u8],
) -> Result<(), Fail> {
    let name = String::from_str(alloc, name)?;
    files.push((name, Bytes::new(Vec::from_slice(alloc, text)?)))?;
    Ok(())
}

fn shelf_of(alloc: Global) -> Result<MemShelf, Fail> {
    let mut files = Vec::new(alloc);
    put(alloc, &mut files, "a.csv", TABLE)?;
    put(alloc, &mut files, "b.sql", BATCH)?;
    Ok(MemShelf {
        files,
        fail_reads: vec![in alloc; 0]?,
        calls: 0,
        faults: 0,
    })
}

fn words_of(alloc: Global) -> Result<Vec<String>, Fail> {
    let mut words = Vec::new(alloc);
    for word in ["--threads", "1", "a.csv", "b.sql"] {
        words.push(String::from_str(alloc, word)?)?;
    }
    Ok(words)
}

// The verdict on an output of the run.
fn verdict_on<R: Abort + RandomSource + Threads + Sync>(
    rt: &R,
    alloc: Global,
    output: &[u8],
) -> Result<Verdict, Fail>
    requires { length output.now ≤ 2 ^ 30 }
{
    inputs_can_run();
    let words = words_of(alloc)?;
    let mut shelf = shelf_of(alloc)?;
    let keys = RandomState::new(rt)?;
    let Ok(request) = request_in(alloc, Call::Run, &words) else {
        panic!(rt; "usage")
    };
    let Ok(inputs) = inputs_of(rt, alloc, keys, &request, &mut shelf) else {
        panic!(rt; "stopped")
    };
    let Ok(verdict) = verdict_of(alloc, &inputs, PolicyName::Relevance, false, output) else {
        panic!(rt; "out of memory")
    };
    Ok(verdict)
}

// The verdict on a first text with a second one behind it.
fn verdict_on_both<R: Abort + RandomSource + Threads + Sync>(
    rt: &R,
    alloc: Global,
    answers: &[u8],
    trace: &[u8],
) -> Result<Verdict, Fail> {
    let mut output = Vec::from_slice(alloc, answers)?;
    output.extend_from_slice(trace)?;
    if output.len() > 1073741824 {
        panic!(rt; "too long")
    }
    verdict_on(rt, alloc, &output)
}

// The counts of the story of the run.
const COUNTS: Counts = Counts {
    registers: 1,
    plans: 1,
    evicts: 0,
    fills: 1,
    filled: 1,
    failed: 0,
    delivers: 1,
    releases: 1,
    stops: 0,
    ends: 1,
};

const STORY: &[u8] = b"register 0 1
plan 0 1 0
fill 0 0 0
filled 0 0 0
deliver 0 1 0
release 0 1 0
end 0 1
";

const NO_END: &[u8] = b"register 0 1
plan 0 1 0
fill 0 0 0
filled 0 0 0
deliver 0 1 0
release 0 1 0
";

const NO_REGISTER: &[u8] = b"plan 0 1 0
fill 0 0 0
filled 0 0 0
deliver 0 1 0
release 0 1 0
end 0 1
";

// What a verdict says, with its numbers: of a legal run its entries, its reads, and those of separate scans.
#[derive(Clone, Copy, Debug, PartialEq, Eq)]
enum Said {
    Legal(usize, u64, u64, Counts),
    NoTrace(u64),
    NotStory(u64),
    Illegal(u64, usize, Reason),
    NotWhole(u64),
    Other,
}

fn said_by(verdict: &Verdict) -> Said {
    match verdict {
        Verdict::Legal {
            entries,
            reads,
            apart,
            counts,
        } => Said::Legal(*entries, *reads, *apart, *counts),
        Verdict::NoTrace { line } => Said::NoTrace(*line),
        Verdict::NotStory { line } => Said::NotStory(*line),
        Verdict::Illegal {
            line,
            place,
            reason,
        } => Said::Illegal(*line, *place, *reason),
        Verdict::NotWhole { line } => Said::NotWhole(*line),
        _ => Said::Other,
    }
}

// A text of answers, a trace, and the verdict on both.
const VERDICTS: &[(&[u8], &[u8], Said)] = &[
    (b"query 1\n2\n", STORY, Said::Legal(7, 1, 1, COUNTS)),
    // A query may be lost when out of memory, though its scan ended.
    (b"refused 1: memory\n", STORY, Said::Legal(7, 1, 1, COUNTS)),
    (b"query 1\n2\n", b"", Said::NoTrace(3)),
    (
        b"query 1\n2\n",
        b"register 0 1\nplan 0 1 00\n",
        Said::NotStory(4),
    ),
    (b"query 1\n2\n", NO_END, Said::NotWhole(9)),
    (
        b"query 1\n2\n",
        NO_REGISTER,
        Said::Illegal(3, 0, Reason::Broken(Rule::Starved)),
    ),
    (
        b"query 1\n2\n",
        b"register 0 1\nend 0 1\n",
        Said::Illegal(4, 1, Reason::Broken(Rule::NeedsNothing)),
    ),
];

// A text of answers, a trace, the query that isn't answered, if that is why, and where they part: the line and the
// byte, what is expected, and what is found.
const PARTINGS: &[(&[u8], &[u8], Option<usize>, u64, usize, &[u8], &[u8])] = &[
    (
        b"refused 1: read fault\n",
        STORY,
        None,
        1,
        12,
        b"refused 1: memory\n",
        b"refused 1: read fault\n",
    ),
    (b"query 1\n3\n", STORY, Some(1), 2, 1, b"2\n", b"3\n"),
    // The line of an answer that is longer, and one that is cut.
    (b"query 1\n22\n", STORY, Some(1), 2, 2, b"2\n", b"22\n"),
    (b"query 1\n2", b"", Some(1), 2, 2, b"2\n", b"2"),
    (b"query 1\n", b"", Some(1), 2, 1, b"2\n", b""),
    (b"", STORY, Some(1), 1, 1, b"query 1\n", b"register 0 1\n"),
    (b"", b"", Some(1), 1, 1, b"query 1\n", b""),
];

#[test]
fn outputs_have_their_verdicts(rt: HostRuntime) -> Result<(), Fail> {
    for (answers, trace, wanted) in VERDICTS {
        let verdict = verdict_on_both(&rt, rt.alloc(), answers, trace)?;
        assert_eq!(rt; said_by(&verdict), *wanted);
    }
    Ok(())
}

// The query that isn't answered, if that is why, and where the output parts from what should stand there.
fn parting_in(verdict: Verdict) -> Option<(Option<usize>, Parting)> {
    match verdict {
        Verdict::NotAnswered { query, parting } => Some((Some(query), parting)),
        Verdict::Differs { parting } => Some((None, parting)),
        _ => None,
    }
}

#[test]
fn wrong_lines_are_told_with_what_is_expected(rt: HostRuntime) -> Result<(), Fail> {
    for (answers, trace, asked, line, byte, expected, found) in PARTINGS {
        let Some((query, parting)) = parting_in(verdict_on_both(&rt, rt.alloc(), answers, trace)?)
        else {
            panic!(&rt; "no parting")
        };
        assert_eq!(rt; query, *asked);
        assert_eq!(rt; parting.line, *line);
        assert_eq!(rt; parting.byte, *byte);
        assert_eq!(rt; parting.expected.as_slice(), *expected);
        assert_eq!(rt; parting.found.as_slice(), *found);
    }
    Ok(())
}
