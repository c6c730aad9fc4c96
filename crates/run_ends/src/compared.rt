// What a comparison comes to.
ghost use Rattle.std.specs.Prelude.{◌≡◌, Err};

use crate::output::Output;
use crate::policy_run::PolicyRun;
use run_stops::Stop;

/// What a comparison of policies comes to before a byte is written.
#[derive(Drop)]
pub struct Compared<D> {
    /// What is to be written: a line for each policy, with status 1 where a query was refused in some run, else 0; or
    /// why the work stops.
    pub ending: Result<Output, Stop>,
    /// What the workers of each run left, in the order of the policies. Where the work stops early there is one for
    /// each run whose workers had run.
    pub runs: Vec<PolicyRun>,
    /// The depot, as the last run left it.
    pub depot: D,
}

impl<D> Compared<D> {
    /// The work ends with this stop.
    pub fn stopped(stop: Stop, runs: Vec<PolicyRun>, depot: D) -> Self
        ensures ending { result.ending ≡ Err stop }
        ensures runs { result.runs ≡ runs }
        ensures depot { result.depot ≡ depot }
    {
        Compared {
            ending: Err(stop),
            runs,
            depot,
        }
    }
}
