//! Whether a text is the output of a run: of its batch over its table, under a policy, in a setting of workers, frames,
//! layout and parts. The text has the trace behind the answers, so each entry of the story is judged, and each answer
//! is computed once more over the whole table, row after row. `inspect_referee` judges the story.
//!
//!     let inputs = inputs_of(&rt, alloc, keys, &request, &mut shelf)?;
//!     match verdict_of(alloc, &inputs, PolicyName::Relevance, output)? {
//!         Verdict::Legal { entries, reads, .. } => ..,        // it is one
//!         Verdict::Illegal { line, reason, .. } => ..,        // this line of the output may not come
//!         other => ..,                                        // what else stands in the way, as `Verdict` tells
//!     }
//!
//! Its parts can be taken alone: an output taken apart (`take_apart`), the terms by which a run's story is judged
//! (`terms_of`), and the plain answer to a plan (`plain_answer`).
#![tactic(auto)]

mod answering;
mod answers;
mod apart;
mod can_run;
mod causes;
mod ends;
mod faults;
mod fewest_reads;
mod judging;
mod lines;
mod order;
mod output_reading;
mod part;
mod parting;
mod parts;
mod query_causes;
mod splitting;
mod stops;
mod terms;
mod terms_given;
mod texts;
mod unfit;
mod verdict;
mod way_back;
mod wording;
mod workers;
mod writing;

pub use answering::plain_answer;
pub use apart::reads_apart;
pub use can_run::inputs_can_run;
pub use causes::cause_of;
pub use ends::line_of_end;
pub use fewest_reads::whole_stories_read_little;
pub use lines::line_in;
pub use part::{Part, behind_line};
pub use parting::Parting;
pub use parts::parts_of;
pub use splitting::{Split, take_apart};
pub use terms::terms_of;
pub use terms_given::run_terms;
pub use texts::{answer_text, refusal_text};
pub use unfit::Unfit;
pub use verdict::{Verdict, verdict_of};
pub use way_back::printed_runs_are_legal;
