ghost use Rattle.std.specs.Prelude.{Some};
ghost use Rattle.inspect_picture.specs.Titles.{title_text};

use crate::bar::Bar;
use crate::delivery::Delivery;
use crate::life::Life;
use crate::reading::Reading;
use std::fmt;

/// What a picture of a story shows at an entry. Entries are numbered from 1.
#[derive(Clone, Copy, Debug, PartialEq, Eq)]
pub enum Mark {
    /// The life of a query.
    Alive(Life),
    /// A chunk is to be loaded, for the query that asked for it.
    Load {
        worker: u32,
        query: u32,
        chunk: u32,
        entry: u32,
    },
    /// A piece is read into a frame.
    Read(Reading),
    /// A stay of a piece in a frame.
    Stay(Bar),
    /// A chunk in the hands of a query.
    Given(Delivery),
    /// A chunk is evicted.
    Eviction {
        chunk: u32,
        entry: u32,
    },
    /// The load of a piece failed, for the query that asked for it.
    Fault {
        query: u32,
        piece: u32,
        entry: u32,
    },
}

impl fmt::Display for Mark {
    ghost output = { λ m. Some (title_text m) };

    fn fmt<W: fmt::Write>(&self, f: &mut fmt::Formatter<W>) -> fmt::Result {
        match *self {
            Mark::Alive(life) => {
                let (worker, query) = (life.worker, life.query);
                write!(f, "query {query} on worker {worker}")?;
                let (first, last) = (life.first, life.last);
                write!(f, ", entries {first} to {last}")
            }
            Mark::Load {
                worker: _,
                query,
                chunk,
                entry,
            } => write!(f, "load of chunk {chunk} for query {query}, entry {entry}"),
            Mark::Read(reading) => {
                let (frame, piece) = (reading.frame, reading.piece);
                write!(f, "piece {piece} is read into frame {frame}")?;
                let (first, last) = (reading.first, reading.last);
                write!(f, ", entries {first} to {last}")
            }
            Mark::Stay(bar) => {
                let (frame, piece, ended) = (bar.frame, bar.piece, bar.ended);
                write!(f, "piece {piece} in frame {frame}")?;
                let (first, last) = (bar.first, bar.last);
                write!(f, ", entries {first} to {last}, {ended}")
            }
            Mark::Given(delivery) => {
                let (query, chunk) = (delivery.query, delivery.chunk);
                write!(f, "chunk {chunk} for query {query}")?;
                let (first, last) = (delivery.first, delivery.last);
                write!(f, ", entries {first} to {last}")
            }
            Mark::Eviction { chunk, entry } => write!(f, "chunk {chunk} evicted, entry {entry}"),
            Mark::Fault {
                query,
                piece,
                entry,
            } => {
                write!(f, "failed load of piece {piece}")?;
                write!(f, " for query {query}, entry {entry}")
            }
        }
    }
}
