// What the code's steps are, or which of them is wrong.
#[derive(Clone, Copy, Debug, PartialEq, Eq)]
pub(crate) enum Body {
    // As the code is.
    Code,
    // In the lobby: adds one to `waiting`, and then reads `calls`.
    AddsFirst,
    // Reads `calls` after the last look.
    ReadsCallsLate,
    // Gives the desk back and calls nobody.
    NeverCalls,
    // Takes one away from `waiting`, and calls nobody.
    TakesOneAway,
    // Raises `calls`, and wakes nobody.
    WakesNobody,
    // At the bell: notes its query, and then reads `rings`.
    NotesFirst,
    // Reads `rings` once it has given the desk back.
    ReadsRingsLate,
    // Lies down without a note of its query.
    NotesNothing,
    // Sleeps at the bell with the desk.
    KeepsDesk,
    // Rings for the next worker by number.
    RingsForAnother,
    // Notes what came of a load, and rings for nobody.
    EndsInSilence,
    // Never rings after a turn.
    TurnsInSilence,
    // Answers NotYet where it is to load.
    NeverLoads,
}
