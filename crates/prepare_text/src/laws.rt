// What holds of every text.
ghost use Rattle.prepare_text.specs.Walk.{AreCsvs};

/// The records that `Source` reads are those of `csv`'s own definition, none lost, doubled or moved, whatever the
/// marks.
pub fn records_are_those_of_csv()
    ensures { AreCsvs }
{}
