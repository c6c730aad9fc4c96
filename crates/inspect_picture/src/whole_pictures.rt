// What holds of every picture.
ghost use Rattle.std.specs.Prelude.{◌≡◌, ◌<◌, ◌≤◌, ℕ, List, length, take};
ghost use Rattle.std.specs.List.{AllByRecursion};
ghost use Rattle.scan_story.specs.declared.entry.Entry.{Entry};
ghost use Rattle.scan_story.specs.declared.setting.Setting.{Setting};
ghost use Rattle.scan_story.specs.Views.{past, piece_in};
ghost use Rattle.inspect_picture.specs.declared.bar.Bar.{Bar};
ghost use Rattle.inspect_picture.specs.Given.{deliveries_in, delivered_from};
ghost use Rattle.inspect_picture.specs.Marks.{bars, marks};
ghost use Rattle.inspect_picture.specs.Stretches.{AllHeld, AreParted, stretches};
ghost use Rattle.inspect_picture.specs.declared.mark.Mark.{Mark};
ghost use Rattle.inspect_picture.specs.declared.scale.Scale.{Scale};
ghost use Rattle.inspect_picture.specs.Over.{listed, pieces_over};
ghost use Rattle.inspect_picture.specs.Svg.{IsSmall};
ghost use Rattle.inspect_picture.specs.Windows.{AllShown, IsWindowOf};

/// The bars of a story are the stays of its pieces: behind each number of entries, the bars in the lane of a frame
/// are that of
/// the piece which the frame then has, one, or none where it has none. And each bar has its time. A law: it does
/// nothing.
pub fn bars_are_stays()
    ensures stays { (s : Setting) (entries : List Entry) (f k : ℕ) → k ≤ length entries →
        pieces_over f k (bars s.groups entries) ≡ listed (piece_in s (past (take k entries)) f) }
    ensures last { (groups : ℕ) (entries : List Entry) →
        AllByRecursion (λ (b : Bar). b.first < b.last) (bars groups entries) }
{}

/// Each delivery of a story has one mark, in their order: a law. It does nothing.
pub fn deliveries_are_marks()
    ensures { (groups : ℕ) (entries : List Entry) →
        deliveries_in (marks groups entries) ≡ delivered_from 1 entries }
{}

/// Each mark of a story that is shown lies within what is drawn of its row, a failure within a red one; and the
/// marks of a
/// row are parted, in their order, into those that are drawn as one, each of which touches those before it or lies
/// within
/// a pixel of them. A law: it does nothing.
pub fn marks_are_drawn()
    ensures held { (z : Scale) (row : ℕ) (ms : List Mark) → AllHeld z row (stretches z row ms) ms }
    ensures parted { (z : Scale) (row : ℕ) (ms : List Mark) → AreParted z row ms }
{}

/// What is drawn of a story is little, however long it is: at most 193 elements in a row, and at most 15 numbers on
/// them.
/// A law: it does nothing.
pub fn pictures_are_small()
    ensures { (z : Scale) (ms : List Mark) → IsSmall z ms }
{}

/// A picture of the entries from and to some numbers shows, of the marks of the whole story, just those that touch
/// them, cut to them; what was open before lies from the left edge on. A picture of all entries shows each mark. A law:
/// it does nothing.
pub fn windows_are_parts()
    ensures window { (groups from to : ℕ) (entries : List Entry) → from ≤ to → to ≤ length entries →
        IsWindowOf groups from to entries }
    ensures whole { (groups : ℕ) (entries : List Entry) → length entries ≤ 4294967295 → AllShown groups entries }
{}
