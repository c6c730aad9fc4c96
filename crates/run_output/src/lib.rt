//! The whole text of a run's output, and its status, from what each statement of the batch comes to; and each line
//! that stands beside answers: of a refusal, of a stop, of the summary, of a policy that was compared.
//!
//!     let outcomes = vec![in alloc; Outcome::Planned(plan), Outcome::Refused(refusal)]?;
//!     let totals = Some(Totals { deliveries: 3, rows: 5 });
//!     let text = output_text(alloc, &schema, &dicts, &outcomes, &answers, totals, None)?;
//!     let status = status_of(&outcomes, &answers);    // 1, since a statement is refused
//!     let line = Stop::Usage.line();                  // what a run prints whose words are refused
//!
//! `docs/ANSWERS.md` has its words.
#![tactic(auto)]

mod output;
mod refused;
mod statement;
mod summary;
mod totals;
mod whole_outputs;

pub use output::{output_text, status_of};
pub use refused::{write_overflow, write_refusal, write_stopped};
pub use run_stops::{Outcome, Stop, StopLine};
pub use summary::{write_policy_line, write_summary};
pub use totals::Totals;
pub use whole_outputs::{names_columns, one_output, output_alone};
