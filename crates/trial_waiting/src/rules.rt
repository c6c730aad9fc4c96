use crate::body::Body;

// What is the same throughout a schedule.
#[derive(Clone, Copy)]
pub(crate) struct Rules {
    pub(crate) body: Body,
    // Of how many active queries one may be a chunk further ahead: 4 in the code, and fewer make `far` greater.
    pub(crate) per_chunk: u32,
    // One in so many loads fails, one in so many plans evicts, and one in so many scans is stopped between two chunks;
    // with 0 none.
    pub(crate) fails: u32,
    pub(crate) evicts: u32,
    pub(crate) stops: u32,
}
