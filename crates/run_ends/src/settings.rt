// What a run is asked for, without words.
ghost use Rattle.std.specs.Prelude.{◌≡◌};
ghost use Rattle.command_words.specs.Views.{request_view};
ghost use Rattle.run_ends.specs.Settings.{asked_in_settings};

use command_words::Request;
use piece_format::Layout;
use scan_story::PolicyName;

/// What a run is asked for: what the words of `run` say, as numbers and names.
#[derive(Drop)]
pub struct Settings {
    /// How many workers run, from 1 to `MOST_WORKERS`.
    pub workers: u32,
    /// How many frames there are, from 1 to `MOST_FRAMES`; `None` asks for the least number that is enough.
    pub frames: Option<u32>,
    /// How many rows a chunk has, from 1 to `MOST_CHUNK_ROWS`.
    pub per: u32,
    /// Whether a chunk is one piece or one for each column.
    pub layout: Layout,
    /// In how many parts each query runs, from 1 to `MOST_PARTS`.
    pub parts: u32,
    /// Asks for the summary behind the answers.
    pub summary: bool,
    /// Asks for the story behind the answers.
    pub trace: bool,
    /// The table's name on the shelf, or `gen:SEED:ROWS` for a generated one.
    pub table: String,
    /// The batch's name on the shelf, or `gen` for the generated one.
    pub batch: String,
}

impl Settings {
    /// The request of the words that say the same.
    pub fn request(&self) -> Request<'_>
        ensures { request_view result ≡ asked_in_settings self.now }
    {
        Request {
            workers: self.workers,
            frames: self.frames,
            per: self.per,
            layout: self.layout,
            parts: self.parts,
            scratch: None,
            policy: PolicyName::Relevance,
            summary: self.summary,
            trace: self.trace,
            compare: false,
            table: self.table.as_str(),
            batch: self.batch.as_str(),
        }
    }
}
