// What holds of the definitions.
ghost use Rattle.prepare_look.specs.Rows.{HaveTheirLines};

/// Each record of a text, in csv's reading of it under these marks, has the line on which it begins, and there are no
/// others.
pub fn each_record_has_its_line()
    ensures { HaveTheirLines }
{}
