//! Many works at once.
ghost use Rattle.std.specs.Prelude.{All};
ghost use Rattle.std.specs.Thread.{IsSync};
ghost use Rattle.std.specs.List.{AllZip};

use example_threads::pair::Work;
use std::sync::Wait;
use std::thread::{Threads, join_mut};

// Each work in a thread of its own: the list is halved, and each half has a thread.
pub(crate) fn all_at_once<S: Sync, W: Work<S> + Send, R: Threads + Wait + Sync>(
    rt: &R,
    shared: &S,
    all: &mut [W],
)
    requires { All (W.ready shared.now) all.old }
    ensures { AllZip W.done all.old all.new }
{
    if all.len() == 0 {
        return;
    }
    if all.len() == 1 {
        all[0].work(rt, shared);
        return;
    }
    let (front, back) = all.split_at_mut(all.len() / 2);
    join_mut(
        rt,
        &mut ||
            requires { IsSync R.row × IsSync S.row × All (W.ready shared.now) front.now }
            ensures { AllZip W.done front.entry.now front.exit.now }
        { all_at_once(rt, shared, front) },
        &mut ||
            requires { IsSync R.row × IsSync S.row × All (W.ready shared.now) back.now }
            ensures { AllZip W.done back.entry.now back.exit.now }
        { all_at_once(rt, shared, back) },
    );
}
