// What a scan has given and not taken back.
ghost use Rattle.std.specs.Prelude.{◌≡◌};

use table_sets::Slots;

/// A chunk that is out: its number, how many rows it has, and the frames of its pieces that the query reads.
#[derive(Drop)]
pub struct Given {
    pub chunk: u32,
    pub rows: u32,
    pub slots: Slots,
}

impl Given {
    /// The same once more.
    pub fn copy(&self) -> Given
        ensures { result ≡ self.now }
    {
        Given {
            chunk: self.chunk,
            rows: self.rows,
            slots: self.slots.copy(),
        }
    }
}
