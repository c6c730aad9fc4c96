ghost use Rattle.waiting_core.specs.Turns.{LoadsAloneBringChunks, OthersStayActive};

/// Chunks become available by the ends of loads alone: no other entry brings a query one.
pub fn loads_alone_bring_chunks()
    ensures { LoadsAloneBringChunks }
{}

/// An entry that doesn't register, stop or end a query leaves it active where it was, and else not.
pub fn others_stay_active()
    ensures { OthersStayActive }
{}
