ghost use Rattle.scan_story.specs.Whole.{Undisturbed};
ghost use Rattle.story_laws.specs.Every.{OfEveryLegal};
ghost use Rattle.story_laws.specs.Frames.{NoPieceTwice, FramesHavePieces, LoadsAreProper};
ghost use Rattle.story_laws.specs.Frames.{MissingAreInNoFrame, TargetsAreNotWhole, EvictionFrees};
ghost use Rattle.story_laws.specs.Frames.{FillTakesOne, HoldersAreWorkers, HeldAreFramed, HeldPiecesStay};

/// No piece stands in two frames.
pub fn no_piece_stands_twice()
    ensures { OfEveryLegal NoPieceTwice }
{}

/// What stands in a frame is a piece of a chunk of the table.
pub fn frames_have_pieces()
    ensures { OfEveryLegal FramesHavePieces }
{}

/// A load that is underway is a worker's, of a chunk of the table. It misses at least one piece and at most one a
/// group, none twice, each of its chunk and read by its trigger. Each piece that it began has a frame of its own, which
/// is empty until the piece is filled. What its trigger reads and it didn't miss, and what it filled, is in frames.
pub fn loads_are_proper()
    ensures { OfEveryLegal LoadsAreProper }
{}

/// What the load underway misses and hasn't filled is in no frame.
pub fn missing_pieces_are_in_no_frame()
    ensures { OfEveryLegal MissingAreInNoFrame }
{}

/// As long as a load is underway, its chunk isn't wholly in frames for its trigger.
pub fn targets_are_not_whole()
    ensures { OfEveryLegal TargetsAreNotWhole }
{}

/// An eviction frees a frame at least.
pub fn eviction_frees_a_frame()
    ensures { OfEveryLegal EvictionFrees }
{}

/// A fill takes one frame at most.
pub fn fill_takes_one_frame()
    ensures { OfEveryLegal FillTakesOne }
{}

/// Who holds a chunk is a worker, and holds it for a query of its own.
pub fn holders_are_workers()
    ensures { OfEveryLegal HoldersAreWorkers }
{}

/// A chunk that is held is wholly in frames for the query for which it is held.
pub fn held_chunks_are_framed()
    ensures { OfEveryLegal HeldAreFramed }
{}

/// A piece of a chunk that stood in a frame as the chunk was delivered stands in that frame until the Release.
pub fn held_pieces_stay()
    ensures { OfEveryLegal HeldPiecesStay }
{}

/// Between a Deliver of a chunk to a worker and the worker's next Release the chunk isn't evicted, and no frame that
/// had a piece of it at the Deliver is filled.
pub fn legal_stories_are_undisturbed()
    ensures { OfEveryLegal Undisturbed }
{}
