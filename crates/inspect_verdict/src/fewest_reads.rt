// What stories read at most.
ghost use Rattle.story_laws.specs.Every.{OfEveryLegal};
ghost use Rattle.inspect_verdict.specs.Apart.{WholeReadLittle};

/// Where a chunk has one piece, a whole story without stopped queries reads at most what separate scans would: a law.
/// It does nothing.
pub fn whole_stories_read_little()
    ensures { OfEveryLegal WholeReadLittle }
{}
