// As what a story is drawn.
ghost use Rattle.std.specs.Prelude.{◌≡◌, option_map};
ghost use Rattle.inspect_words.specs.Asked.{form_of};

/// As what a story is drawn.
#[derive(Clone, Copy, Debug, PartialEq, Eq)]
pub enum Form {
    /// A picture, as SVG.
    Picture,
    /// A page of HTML with the picture and a table of the story's scans: `--html`.
    Page,
}

/// The form that the value of `--html` names; a flag that was named has the value `true`.
pub(crate) fn form_of(html: Option<&str>) -> Form
    ensures { result ≡ form_of (option_map (λ s. s.now) html.entry) }
{
    if matches!(html, Some("true")) {
        return Form::Page;
    }
    Form::Picture
}
