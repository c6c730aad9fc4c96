// What the words ask for.
use crate::form::Form;
use crate::window::Window;
use command_words::Request;

/// What the words ask for.
#[derive(Clone, Copy, Debug, PartialEq, Eq)]
pub enum Asked<'a> {
    /// What a table holds, and what becomes of each statement of a batch, where the table is cut as the request says.
    /// All else of the request is usual: `explain`.
    Explain {
        run: Request<'a>,
    },
    /// Whether the file OUTPUT holds the output of a legal run of the request: `judge`.
    Judge {
        run: Request<'a>,
        output: &'a str,
    },
    /// Whether the file STORY holds the text of a right story in the setting that the file SETTING tells, of which
    /// choices, and the dealing of queries to workers, may be left to the story: `judge --story`.
    Story {
        setting: &'a str,
        story: &'a str,
        choices: bool,
        dealing: bool,
    },
    /// The text of the setting in which the story of the request's run is judged: `setting`.
    Setting {
        run: Request<'a>,
    },
    /// The story in the file OUTPUT, or some of its entries, drawn: `draw`.
    Draw {
        output: &'a str,
        window: Window,
        form: Form,
    },
}
