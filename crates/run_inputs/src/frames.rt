// How many chunks a table has, and how many frames it is read through.
ghost use Rattle.std.specs.Prelude.{◌≡◌, ◌≢◌, ◌≤◌, IfErr, IfOk, None, OnOk, Some, length};
ghost use Rattle.run_inputs.specs.Ending.{IsOfTable};
ghost use Rattle.run_inputs.specs.Order.{chunks_stop, frames_given, frames_stop, size_stop};
ghost use Rattle.command_words.specs.Limits.{IsWithinLimits};
ghost use Rattle.command_words.specs.Views.{request_view};
ghost use Rattle.run_stops.specs.declared.stop.Stop.TheVariants as stop;

use crate::limits::MOST_POOL_WORDS;
use command_words::Request;
use piece_format::{groups_in, word_count};
use run_stops::Stop;
use table_core::{MOST_CHUNKS, MOST_COLUMNS, MOST_ROWS, Table, chunk_count};

fn judge_chunks(rows: u32, per: u32) -> Result<(), Stop>
    requires { 1 ≤ per }
    ensures ok { OnOk result (chunks_stop per rows ≡ None) }
    ensures err { IfErr result (λ s. chunks_stop per rows ≡ Some s) }
    ensures of_table { IfErr result (λ s. IsOfTable s × (s ≢ stop.TableFault)) }
{
    let chunks = chunk_count(rows, per);
    if chunks > MOST_CHUNKS {
        return Err(Stop::Chunks { chunks });
    }
    Ok(())
}

// How many frames there are over chunks of at most so many rows, or why so many don't do.
fn judge_frames(request: &Request<'_>, columns: u32, rows: u32) -> Result<u32, Stop>
    requires limits { IsWithinLimits (request_view request.now) }
    requires some { 1 ≤ columns }
    requires few { columns ≤ MOST_COLUMNS }
    ensures ok { IfOk result (λ n. (frames_stop request.now.workers request.now.frames request.now.layout columns
        request.now.per rows ≡ None)
        × (n ≡ frames_given request.now.workers request.now.frames request.now.layout columns)) }
    ensures err { IfErr result (λ s. frames_stop request.now.workers request.now.frames request.now.layout columns
        request.now.per rows ≡ Some s) }
    ensures of_table { IfErr result (λ s. IsOfTable s × (s ≢ stop.TableFault)) }
{
    let needed = (3 * request.workers + 1) * groups_in(request.layout, columns);
    let given = match request.frames {
        Some(given) => given,
        None => needed,
    };
    if given < needed {
        return Err(Stop::FramesNeeded {
            frames: u64::from(needed),
        });
    }
    let most = word_count(request.layout, columns, request.per.min(rows));
    let words = u64::from(given) * u64::from(most);
    if words > MOST_POOL_WORDS {
        return Err(Stop::FrameWords { words });
    }
    Ok(given)
}

/// How many frames a run over the table has; or that it has too many chunks, too few frames, or too many words in them.
pub(crate) fn frames_for(request: &Request<'_>, table: &Table) -> Result<u32, Stop>
    requires limits { IsWithinLimits (request_view request.now) }
    requires some { 1 ≤ length table.now.columns }
    requires few { length table.now.columns ≤ MOST_COLUMNS }
    requires rows { length table.now.rows ≤ MOST_ROWS }
    ensures ok { IfOk result (λ n. (size_stop (request_view request.now) (length table.now.columns)
        (length table.now.rows) ≡ None)
        × (n ≡ frames_given request.now.workers request.now.frames request.now.layout (length table.now.columns))) }
    ensures err { IfErr result (λ s. size_stop (request_view request.now) (length table.now.columns)
        (length table.now.rows) ≡ Some s) }
    ensures of_table { IfErr result (λ s. IsOfTable s × (s ≢ stop.TableFault)) }
{
    let rows = table.len() as u32;
    judge_chunks(rows, request.per)?;
    judge_frames(request, table.schema().len() as u32, rows)
}
