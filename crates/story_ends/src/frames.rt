ghost use Rattle.story_laws.specs.Every.{OfEveryLegal};
ghost use Rattle.story_ends.specs.Frames.{DeliversFindReady, FilledAreUnused, FillsFindFree, HeldStayReady};
ghost use Rattle.story_ends.specs.Scenes.{NobodyWaits, PinsAndFillsApart};

/// Where a fill of a frame may come, no worker uses the frame, and it isn't being filled.
pub fn fills_find_free_frames()
    ensures { OfEveryLegal FillsFindFree }
{}

/// From a Fill of a frame to its Filled, no worker uses the frame: so whoever claims it meets no pin.
pub fn claimed_frames_are_unused()
    ensures { OfEveryLegal FilledAreUnused }
{}

/// Where a chunk may be delivered to a query, each piece of it that the query reads stands in a frame that isn't being
/// filled.
pub fn delivered_pieces_are_ready()
    ensures { OfEveryLegal DeliversFindReady }
{}

/// From the Deliver of a chunk to the worker's next Release each of these pieces stands in its frame, which isn't being
/// filled: so whoever pins it finds it ready.
pub fn held_pieces_stay_ready()
    ensures { OfEveryLegal HeldStayReady }
{}

/// Whatever workers did, the next step on a frame that one of them tries in its order succeeds at once: the machine of
/// the frame allows it, in the state in which the frame is.
///
/// The order is that of a scan. A worker pins the frames of a chunk after its Deliver and unpins them before its
/// Release; the worker of a load marks and claims each frame of it and publishes its piece, or abandons it, after the
/// Fills and before it writes what came of them.
pub fn frames_make_nobody_wait()
    ensures { NobodyWaits }
{}

/// Where a worker has a piece to pin in a frame, all that others may do to the frame is to pin and unpin it; where a
/// frame is being filled, nobody may pin or unpin it.
///
/// So a compare and exchange of a pin loses only against pins and unpins of other workers, each of which has its chunk
/// once; and one of a mark or a claim loses against nothing.
pub fn pins_and_fills_are_apart()
    ensures { PinsAndFillsApart }
{}
