ghost use Rattle.std.specs.Prelude.{◌≡◌, IfOk};
ghost use Rattle.story_text.specs.Text.{story_text};

use crate::line::Line;
use scan_story::{Bytes, Entry, Memory};
use std::alloc::Global;

/// The text of the entries, a line each.
pub fn write_story(alloc: Global, entries: &[Entry]) -> Result<Bytes, Memory>
    ensures { IfOk result (λ text. text ≡ story_text entries.now) }
{
    let mut text = String::new(alloc);
    for entry in entries {
        let line = Line(*entry);
        let Ok(line) = format!(in alloc; "{line}\n") else {
            return Err(Memory);
        };
        if text.push_str(line.as_str()).is_err() {
            return Err(Memory);
        }
    }
    Ok(Bytes::new(text.into_bytes()))
}
