// The text of the setting of terms.
ghost use Rattle.std.specs.Prelude.{◌≡◌, IfOk};
ghost use Rattle.std.specs.List.{AllByRecursion};
ghost use Rattle.scan_story.specs.Setting.{HasRoom, IsSetting};
ghost use Rattle.inspect_referee.specs.Terms.{setting_of};
ghost use Rattle.inspect_story.specs.Settings.{HasShortColumns, IsReadAs, head_of, text_of};

use crate::needs::plain_needs;
use inspect_referee::Terms;
use scan_story::{Bytes, Memory};
use setting_text::{Head, PlainSetting, write_setting};
use std::alloc::{AllocError, Global};

// The terms in the form of their text.
fn plain_of(alloc: Global, terms: &Terms) -> Result<PlainSetting, AllocError>
    ensures head { IfOk result (λ p. p.head ≡ head_of (setting_of terms.now)) }
    ensures needs { IfOk result (λ p. p.needs.items ≡ (setting_of terms.now).needs) }
    ensures short { IfOk result (λ p. AllByRecursion HasShortColumns p.needs.items) }
{
    let needs = plain_needs(alloc, &terms.needs)?;
    let head = Head {
        workers: terms.workers,
        frames: terms.frames,
        chunks: terms.chunks,
        groups: terms.groups,
        policy: Some(terms.policy),
    };
    Ok(PlainSetting { head, needs })
}

/// The text of the setting of these terms, which `read_setting` reads as that setting. The error is out of memory.
pub fn write_terms(alloc: Global, terms: &Terms) -> Result<Bytes, Memory>
    requires may { IsSetting (setting_of terms.now) }
    requires room { HasRoom (setting_of terms.now) }
    ensures text { IfOk result (λ t. t ≡ text_of (setting_of terms.now)) }
    ensures read { IfOk result (λ t. IsReadAs t (setting_of terms.now)) }
{
    match plain_of(alloc, terms) {
        Ok(plain) => write_setting(alloc, &plain),
        Err(_) => Err(Memory),
    }
}
