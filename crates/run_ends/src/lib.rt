//! What a run decides of what its batch came to, what it promises, and what it writes: the statements as tasks, the
//! text of the answers with what is shown behind them, what a story spent; the clauses of the top calls of `coop_run`
//! with their proofs from what a run decides, and the types that a run leaves. It knows nothing of the workers.
//!
//!     let tasks = tasks_of(alloc, &inputs.outcomes)?;
//!     let reads = Counts::of(&ran.story).reads;
//!     let status = print(decision.ending, &mut out);
//!     let ended = leave(alloc, Settled { status, ran: decision.ran, depot: decision.depot });
//!
//! specs/Promises.antt has the clauses of a run with one policy, THE HEADLINE first, and specs/Boxed.antt those of a
//! run with policies in boxes. docs/ANSWERS.md and docs/BATCH.md have the rules, docs/COMMAND_LINE.md is the manual,
//! and docs/POLICIES.md tells the rules of a comparison.
#![tactic(auto)]

mod answered;
mod boxed_end;
mod compared;
mod counts;
mod decision;
mod ended;
mod ending;
mod given;
mod lines;
mod lost_for_memory;
mod made;
mod output;
mod policy_run;
mod printing;
mod program_end;
mod settings;
mod settled;
mod showing;
mod stopped_queries;
mod tasks;

pub use answered::Answered;
pub use boxed_end::{BoxedEnd, stop_before};
pub use compared::Compared;
pub use counts::Counts;
pub use decision::Decision;
pub use ended::{Ended, leave};
pub use ending::Ending;
pub use given::inputs_for;
pub use lines::write_line;
pub use lost_for_memory::lost_for_memory_are_queries;
pub use made::Made;
pub use output::Output;
pub use piece_format::Layout;
pub use policy_run::{PolicyRun, kept, name_of, run_of};
pub use printing::print;
pub use program_end::end;
pub use settings::Settings;
pub use settled::{Settled, refuse};
pub use showing::{decision_of, output_of, totals_of, trace_of};
pub use stopped_queries::stops_are_stopped_queries;
pub use tasks::tasks_of;
