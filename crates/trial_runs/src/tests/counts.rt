// The counts of a story by hand.
use run_ends::Counts;
use scan_story::{Entry, Why};

#[test]
fn each_kind_is_counted_once(rt: HostRuntime) {
    let why = Why::Fault {
        before: 0,
        after: 1,
    };
    let story = [
        Entry::Register {
            worker: 0,
            query: 1,
        },
        Entry::Plan {
            worker: 0,
            query: 1,
            chunk: 0,
        },
        Entry::Evict {
            worker: 0,
            chunk: 3,
        },
        Entry::Fill {
            worker: 0,
            frame: 0,
            piece: 0,
        },
        Entry::Filled {
            worker: 0,
            frame: 0,
            piece: 0,
        },
        Entry::Deliver {
            worker: 0,
            query: 1,
            chunk: 0,
        },
        Entry::Release {
            worker: 0,
            query: 1,
            chunk: 0,
        },
        Entry::Failed {
            worker: 0,
            query: 1,
            piece: 1,
            why,
        },
        Entry::Stop {
            worker: 1,
            query: 7,
        },
        Entry::End {
            worker: 2,
            query: 9,
        },
    ];
    let counts = Counts::of(&story);
    assert_eq!(rt; counts.reads, 2);
    assert_eq!(rt; counts.evictions, 1);
    assert_eq!(rt; counts.deliveries, 1);
    assert_eq!(rt; counts.stopped.len(), 2);
    assert!(rt; counts.stopped.has(1));
    assert!(rt; counts.stopped.has(7));
}

#[test]
fn an_empty_story_has_spent_nothing(rt: HostRuntime) {
    let counts = Counts::of(&[]);
    assert_eq!(rt; counts.reads, 0);
    assert_eq!(rt; counts.evictions, 0);
    assert_eq!(rt; counts.deliveries, 0);
    assert_eq!(rt; counts.stopped.len(), 0);
}
