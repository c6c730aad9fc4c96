// Settings written.
ghost use Rattle.std.specs.Prelude.{◌≡◌, IfOk};
ghost use Rattle.std.specs.String.{string_bytes};
ghost use Rattle.setting_text.specs.Text.{setting_text};

use crate::lines::{head_line, need_line};
use crate::plain::PlainSetting;
use scan_story::{Bytes, Memory};
use std::alloc::{AllocError, Global};

fn text_of(alloc: Global, setting: &PlainSetting) -> Result<String, AllocError>
    ensures { IfOk result (λ s. string_bytes s ≡ setting_text setting.now.head setting.now.needs.items) }
{
    let head = head_line(alloc, setting.head)?;
    let mut text = format!(in alloc; "{head}\n")?;
    for need in &setting.needs {
        let line = need_line(alloc, need)?;
        let line = format!(in alloc; "{line}\n")?;
        text.push_str(line.as_str())?;
    }
    Ok(text)
}

/// The text of the setting: its first line, and a line a query.
pub fn write_setting(alloc: Global, setting: &PlainSetting) -> Result<Bytes, Memory>
    ensures { IfOk result (λ t. t ≡ setting_text setting.now.head setting.now.needs.items) }
{
    match text_of(alloc, setting) {
        Ok(text) => Ok(Bytes::new(text.into_bytes())),
        Err(_) => Err(Memory),
    }
}
