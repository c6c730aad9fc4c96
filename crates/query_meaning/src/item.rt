// What a result row shows.

/// An item of a groups query. Columns are counted from 0.
#[derive(Clone, Copy, PartialEq, Eq)]
pub enum Item {
    /// How many rows the group has.
    CountAll,
    /// How many cells of the column aren't NULL.
    Count(u32),
    /// The sum of the column's numbers, where a code counts as 0; NULL where there is no cell but NULL.
    Sum(u32),
    /// The least cell of the column that isn't NULL, NULL where there is none.
    Min(u32),
    /// The greatest cell of the column that isn't NULL, NULL where there is none.
    Max(u32),
    /// The cell of the key column of this place, counted from 0 along the key columns; NULL where there is no such
    /// place.
    Key(u32),
}
