// The steps of a frame over its control word, by numbers that were worked out by hand.
use frame_core::{FramePhase, State, Step, apply, state_of, word_of};
use std::process::Abort;

// The word after the step at this word, or the refusal's word; words have at most 50 bits.
fn stepped(word: u64, step: Step) -> Result<u64, u64> {
    if word >= 1 << 50 {
        return Err(u64::MAX);
    }
    match apply(state_of(word), step) {
        Ok(next) => Ok(word_of(next)),
        Err(refusal) => Err(refusal.word),
    }
}

// A word, a step, and the word after it or the refusal's word.
type Stepped = (u64, Step, Result<u64, u64>);

fn try_steps(rt: &impl Abort, rows: &[Stepped]) {
    for (word, step, want) in rows {
        assert!(rt; stepped(*word, *step) == *want, "{word}");
    }
}

// Steps one after another, each at the word that the one before left.
const STEPS: &[Stepped] = &[
    (1441792, Step::Take { piece: 5 }, Ok(1441793)),
    (1441793, Step::Mark, Ok(1507329)),
    (1507329, Step::Claim, Err(1507329)),
    (1507329, Step::Release, Ok(1507328)),
    (1507328, Step::Claim, Ok(65536)),
    (65536, Step::Put, Ok(65536)),
    (65536, Step::Publish { piece: 6 }, Ok(1703936)),
    (1703936, Step::Take { piece: 6 }, Ok(1703937)),
    (1703937, Step::Take { piece: 5 }, Err(1703937)),
];

const READY: State = State {
    phase: FramePhase::Ready,
    piece: 5,
    pins: 0,
};

#[test]
fn the_steps_of_one_control_word(rt: HostRuntime) {
    assert!(rt; word_of(READY) == 1441792);
    try_steps(&rt, STEPS);
}

// Free, being filled, ready with piece 1 and no pin, the same with 65535 pins, marked with piece 1 and one pin.
const WORDS: [u64; 5] = [0, 65536, 393216, 458751, 458753];

const NO: Result<u64, ()> = Err(());

// A step, and the word that it leaves of each of those words; it is refused where there is none.
type Left<'a> = (Step, &'a [Result<u64, ()>]);

const LEFT: &[Left<'static>] = &[
    (Step::Take { piece: 1 }, &[NO, NO, Ok(393217), NO, NO]),
    (Step::Release, &[NO, NO, NO, Ok(458750), Ok(458752)]),
    (Step::Mark, &[NO, NO, Ok(458752), Ok(524287), NO]),
    (Step::Claim, &[Ok(65536), NO, NO, NO, NO]),
    (Step::Put, &[NO, Ok(65536), NO, NO, NO]),
    (Step::Publish { piece: 2 }, &[NO, Ok(655360), NO, NO, NO]),
    (Step::Abandon, &[NO, Ok(0), NO, NO, NO]),
    (Step::Read, &[NO, NO, NO, Ok(458751), Ok(458753)]),
];

// Whether the step leaves just these of those words.
fn leaves(step: Step, wants: &[Result<u64, ()>]) -> bool {
    for i in 0..WORDS.len() {
        let word = WORDS[i];
        if i >= wants.len() || stepped(word, step) != wants[i].map_err(|()| word) {
            return false;
        }
    }
    true
}

fn try_left(rt: &impl Abort, rows: &[Left<'_>]) {
    for (step, wants) in rows {
        assert!(rt; leaves(*step, wants), "{step:?}");
    }
}

#[test]
fn each_step_is_refused_outside_its_phases(rt: HostRuntime) {
    try_left(&rt, LEFT);
}
