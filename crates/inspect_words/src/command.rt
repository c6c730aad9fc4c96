// The command, as clap has it.
ghost use Rattle.std.specs.Prelude.{◌≡◌, IfOk};
ghost use Rattle.clap.specs.Simple.{App, app_of};
ghost use Rattle.inspect_words.specs.Command.{IsCommand, cut_rules, draw, explain, form_rules, freedom_rules};
ghost use Rattle.inspect_words.specs.Command.{inspect, judge, output_place, setting, side_rules, story, story_places};
ghost use Rattle.inspect_words.specs.Command.{table_places, window_rules, with_rules, work_rules};

use crate::places::{flag, number, option, place};
use crate::version::VERSION;
use crate::window::MOST_ENTRIES;
use clap::Command;
use command_words::{MOST_FRAMES, MOST_PARTS, MOST_WORKERS};
use std::alloc::{AllocError, Global};
use table_core::MOST_CHUNK_ROWS;

/// The command with its subcommands.
pub(crate) fn command<'a>(alloc: Global) -> Result<Command<'a>, AllocError>
    ensures { IfOk result (λ c. app_of c ≡ inspect) }
{
    let first = explain(alloc)?;
    let second = judge(alloc)?;
    let third = setting(alloc)?;
    let last = draw(alloc)?;
    let subcommands = vec![in alloc; first, second, third, last]?;
    let named = Command::new(alloc, "coop_inspect").bin_name("coop_inspect")?;
    named
        .no_binary_name(true)
        .disable_help_subcommand(true)
        .arg_required_else_help(true)
        .subcommand_required(true)
        .version(VERSION)
        .about("Explains a batch of coop_cli, judges the output of a run, or draws it")
        .subcommands(subcommands)
}

// `explain [--rows R] [--layout L] TABLE BATCH`
fn explain<'a>(alloc: Global) -> Result<Command<'a>, AllocError>
    ensures { IfOk result (λ c. (a : App) × IsCommand a c × (a.top ≡ explain)) }
{
    let start = Command::new(alloc, "explain").version(VERSION).about(
        "Tells what a table holds and what becomes of each statement of a batch",
    );
    let cut = with_cut(alloc, start)?;
    with_table(alloc, cut)
}

// `judge [the words of the run] TABLE BATCH OUTPUT`
fn judge<'a>(alloc: Global) -> Result<Command<'a>, AllocError>
    ensures { IfOk result (λ c. (a : App) × IsCommand a c × (a.top ≡ judge)) }
{
    let start = Command::new(alloc, "judge").version(VERSION).about(
        "Tells whether OUTPUT is what a run of coop_cli with these words and --trace prints; see judge --story --help",
    );
    let work = with_work(alloc, start)?;
    let cut = with_cut(alloc, work)?;
    let side = with_side(alloc, cut)?;
    let table = with_table(alloc, side)?;
    with_output(alloc, table)
}

/// `judge --story [--policy any] [--dealt any] SETTING STORY`, for the words behind `judge --story`.
pub(crate) fn story_command<'a>(alloc: Global) -> Result<Command<'a>, AllocError>
    ensures { IfOk result (λ c. app_of c ≡ story) }
{
    let named = Command::new(alloc, "coop_inspect-judge").bin_name("coop_inspect judge --story")?;
    let start = named.no_binary_name(true).version(VERSION).about(
        "Tells whether STORY, the text of any engine's story, is right in the setting that SETTING tells",
    );
    let freedom = with_freedom(alloc, start)?;
    with_story(alloc, freedom)
}

// What of the setting is left to the story.
fn with_freedom<'a>(alloc: Global, command: Command<'a>) -> Result<Command<'a>, AllocError>
    ensures { (a : App) → IsCommand a command.entry → IfOk result (IsCommand (with_rules a freedom_rules)) }
{
    let options = vec![in alloc;
        option(
            alloc,
            "policy",
            "any",
            "Leave choices free, and judge the rules alone [default: the policy of SETTING]",
        ),
        option(
            alloc,
            "dealt",
            "any",
            "Leave it to STORY on which worker a query is [default: the worker of SETTING]",
        ),
    ]?;
    command.args(options)
}

fn with_story<'a>(alloc: Global, command: Command<'a>) -> Result<Command<'a>, AllocError>
    ensures { (a : App) → IsCommand a command.entry → IfOk result (IsCommand (with_rules a story_places)) }
{
    let places = vec![in alloc;
        place(
            alloc,
            "SETTING",
            "A file with a setting, as coop_inspect setting prints it"
        ),
        place(
            alloc,
            "STORY",
            "A file with the entries of a story, a line each"
        ),
    ]?;
    command.args(places)
}

// `setting [the words of the run] TABLE BATCH`
fn setting<'a>(alloc: Global) -> Result<Command<'a>, AllocError>
    ensures { IfOk result (λ c. (a : App) × IsCommand a c × (a.top ≡ setting)) }
{
    let start = Command::new(alloc, "setting").version(VERSION).about(
        "Prints the setting in which the story of a run of coop_cli with these words is judged",
    );
    let work = with_work(alloc, start)?;
    let cut = with_cut(alloc, work)?;
    let side = with_side(alloc, cut)?;
    with_table(alloc, side)
}

// `draw [--from N] [--to M] [--html] OUTPUT`
fn draw<'a>(alloc: Global) -> Result<Command<'a>, AllocError>
    ensures { IfOk result (λ c. (a : App) × IsCommand a c × (a.top ≡ draw)) }
{
    let start = Command::new(alloc, "draw").version(VERSION).about(
        "Draws the trace at the end of OUTPUT as an SVG picture on standard output",
    );
    let window = with_window(alloc, start)?;
    let form = with_form(alloc, window)?;
    with_output(alloc, form)
}

// Which entries are drawn.
fn with_window<'a>(alloc: Global, command: Command<'a>) -> Result<Command<'a>, AllocError>
    ensures { (a : App) → IsCommand a command.entry → IfOk result (IsCommand (with_rules a window_rules)) }
{
    let options = vec![in alloc;
        number(
            alloc,
            "from",
            MOST_ENTRIES,
            "The first entry that is drawn [default: the first]",
        ),
        number(
            alloc,
            "to",
            MOST_ENTRIES,
            "The last entry that is drawn [default: the last]",
        ),
    ]?;
    command.args(options)
}

// As what they are drawn.
fn with_form<'a>(alloc: Global, command: Command<'a>) -> Result<Command<'a>, AllocError>
    ensures { (a : App) → IsCommand a command.entry → IfOk result (IsCommand (with_rules a form_rules)) }
{
    command.arg(flag(
        alloc,
        "html",
        "A page of HTML with the picture and a table of its scans",
    ))
}

// How the table is cut.
fn with_cut<'a>(alloc: Global, command: Command<'a>) -> Result<Command<'a>, AllocError>
    ensures { (a : App) → IsCommand a command.entry → IfOk result (IsCommand (with_rules a cut_rules)) }
{
    let options = vec![in alloc;
        number(
            alloc,
            "rows",
            MOST_CHUNK_ROWS,
            "Rows of a chunk [default: 1024]"
        ),
        option(
            alloc,
            "layout",
            "LAYOUT",
            "How rows become pieces: row or column [default: row]",
        ),
    ]?;
    command.args(options)
}

// Who works on it, and how.
fn with_work<'a>(alloc: Global, command: Command<'a>) -> Result<Command<'a>, AllocError>
    ensures { (a : App) → IsCommand a command.entry → IfOk result (IsCommand (with_rules a work_rules)) }
{
    let options = vec![in alloc;
        number(alloc, "threads", MOST_WORKERS, "Workers [default: 4]"),
        number(
            alloc,
            "frames",
            MOST_FRAMES,
            "Frames [default: the least number that is enough]",
        ),
        number(
            alloc,
            "parts",
            MOST_PARTS,
            "Parts of each query [default: 1]"
        ),
        option(
            alloc,
            "policy",
            "POLICY",
            "relevance, elevator, normal or attach [default: relevance]",
        ),
    ]?;
    command.args(options)
}

// What changes no answer and no entry.
fn with_side<'a>(alloc: Global, command: Command<'a>) -> Result<Command<'a>, AllocError>
    ensures { (a : App) → IsCommand a command.entry → IfOk result (IsCommand (with_rules a side_rules)) }
{
    let options = vec![in alloc;
        option(
            alloc,
            "scratch",
            "FILE",
            "The scratch file of the run, which isn't touched",
        ),
        flag(alloc, "summary", "The run prints the summary"),
        flag(
            alloc,
            "trace",
            "The run prints the trace, as it must to be judged; the word may be left out",
        ),
    ]?;
    command.args(options)
}

fn with_table<'a>(alloc: Global, command: Command<'a>) -> Result<Command<'a>, AllocError>
    ensures { (a : App) → IsCommand a command.entry → IfOk result (IsCommand (with_rules a table_places)) }
{
    let places = vec![in alloc;
        place(alloc, "TABLE", "A CSV file, or gen:SEED:ROWS"),
        place(alloc, "BATCH", "A file of SQL statements, or gen"),
    ]?;
    command.args(places)
}

fn with_output<'a>(alloc: Global, command: Command<'a>) -> Result<Command<'a>, AllocError>
    ensures { (a : App) → IsCommand a command.entry → IfOk result (IsCommand (with_rules a output_place)) }
{
    command.arg(place(alloc, "OUTPUT", "A file with what coop_cli --trace printed"))
}
