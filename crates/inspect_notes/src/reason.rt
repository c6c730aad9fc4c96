// Why a column is one of texts.

/// Why a column is one of texts where some of its values spell numbers.
#[derive(Clone, Copy, Debug, PartialEq, Eq)]
pub enum Reason {
    /// Some values spell no number.
    Strangers {
        /// The row of the first of them; the rows below the header count from 1.
        row: u32,
        /// The code of its text in the column's dictionary.
        code: u32,
        /// How many rows have such a value.
        count: u32,
    },
    /// Each value spells a number, but no kind of numbers has room for all of them, as for a `-0` among whole numbers,
    /// or where the places of one leave no room for the digits of another.
    Mixed,
}
