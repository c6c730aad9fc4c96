// Which entries of a story are to be drawn.
ghost use Rattle.std.specs.Prelude.{◌≡◌, IfSome, option_map};
ghost use Rattle.inspect_words.specs.Windows.{IsInOrder, counted, is_in_order, number_given};
ghost use Rattle.inspect_words.specs.Windows.{number_of, window_by, window_of};

/// The greatest number that an entry may have in the words.
pub(crate) const MOST_ENTRIES: u32 = u32::MAX;

/// The entries of a story that are to be drawn, from 1, both ends included. Without either all are; without one of them
/// it is the first, or the last, of the story.
#[derive(Clone, Copy, Debug, PartialEq, Eq)]
pub struct Window {
    /// The first, which is no later than the last.
    pub from: Option<u32>,
    /// The last.
    pub to: Option<u32>,
}

impl Window {
    /// All entries.
    pub const WHOLE: Window = Window {
        from: None,
        to: None,
    };
}

// Entries are numbered from 1.
fn counted(number: u32) -> Option<u32>
    ensures { result ≡ counted number }
{
    if number >= 1 { Some(number) } else { None }
}

// The number that an entry has.
fn number_of(text: &str) -> Option<u32>
    ensures { result ≡ number_of text.now }
{
    match text.parse::<u32>() {
        Ok(number) => counted(number),
        Err(_) => None,
    }
}

// The number that an option gives, where it is named.
fn number_given(text: Option<&str>) -> Option<Option<u32>>
    ensures { result ≡ number_given (option_map (λ s. s.now) text.entry) }
{
    match text {
        None => Some(None),
        Some(text) => Some(Some(number_of(text)?)),
    }
}

fn is_in_order(from: Option<u32>, to: Option<u32>) -> bool
    ensures { result ≡ is_in_order from to }
{
    match (from, to) {
        (Some(from), Some(to)) => from <= to,
        _ => true,
    }
}

// The window from and to these, where the first is no later than the last.
fn window_by(from: Option<u32>, to: Option<u32>) -> Option<Window>
    ensures window { result ≡ window_by from to }
    ensures order { IfSome result IsInOrder }
{
    if is_in_order(from, to) {
        Some(Window { from, to })
    } else {
        None
    }
}

/// The window that the values of `--from` and `--to` name.
pub(crate) fn window_of(from: Option<&str>, to: Option<&str>) -> Option<Window>
    ensures window { result ≡ window_of (option_map (λ s. s.now) from.entry) (option_map (λ s. s.now) to.entry) }
    ensures order { IfSome result IsInOrder }
{
    let from = number_given(from)?;
    let to = number_given(to)?;
    window_by(from, to)
}
