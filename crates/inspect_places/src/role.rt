// Which part a name plays in a statement.

/// Which part a name plays.
#[derive(Clone, Copy, Debug, PartialEq, Eq)]
pub enum Role {
    /// The table.
    Table,
    /// An item that is the column itself.
    Item,
    /// In the parentheses of `COUNT`, `MIN` or `MAX`.
    Called,
    /// In the parentheses of `SUM`.
    Summed,
    /// Compared with a number.
    WithNumber,
    /// Compared with a text.
    WithText,
    /// Tested for NULL, a key column or an order.
    Bare,
}

/// What the tokens before a token say of the name that may stand there.
#[derive(Clone, Copy, Debug, PartialEq, Eq)]
pub enum Before {
    /// Among the items, in no parentheses.
    Items,
    /// Behind `SUM`.
    Sum,
    /// Behind `SUM (`.
    SumOpen,
    /// Behind another parenthesis among the items.
    Open,
    /// Behind `FROM`.
    From,
    /// Behind the table.
    Rest,
}

/// What a name is refused for.
#[derive(Clone, Copy, Debug, PartialEq, Eq)]
pub enum About {
    /// The table isn't this one.
    Table,
    /// No column has the name.
    Column,
    /// The column's kind doesn't allow the use.
    Use,
    /// A plain item is no key column.
    Key,
}
