// Where the grammar stands behind the tokens that were read.

/// Where in a query the next token stands. What a state carries is what the rest of the query depends on:
///
/// - `plain`: all items so far are names, so that the query may still have a limit;
/// - `room`: how many more things the list takes, if that is bounded;
/// - `depth`: how many parentheses of the condition are open.
#[derive(Clone, Copy, Debug, PartialEq, Eq)]
pub enum State {
    /// Nothing was read.
    Start,
    /// An item comes.
    Item { plain: bool, room: Option<u32> },
    /// Behind `COUNT`.
    Count { room: Option<u32> },
    /// Behind `COUNT (`.
    CountOpen { room: Option<u32> },
    /// Behind `SUM`, `MIN` or `MAX`.
    Call { room: Option<u32> },
    /// Behind the parenthesis of one of these.
    CallOpen { room: Option<u32> },
    /// Behind what is counted, summed or compared.
    CallEnd { room: Option<u32> },
    /// Behind an item.
    ItemEnd { plain: bool, room: Option<u32> },
    /// Behind `FROM`.
    Table { plain: bool },
    /// Behind the table's name.
    TableEnd { plain: bool },
    /// A comparison, a test for NULL, `NOT` or a parenthesis comes.
    Test { plain: bool, depth: u64 },
    /// Behind the name of a test.
    TestName { plain: bool, depth: u64 },
    /// Behind a comparison.
    Compared { plain: bool, depth: u64 },
    /// Behind the minus of a literal.
    Minus { plain: bool, depth: u64 },
    /// Behind `IS`.
    Is { plain: bool, depth: u64 },
    /// Behind `IS NOT`.
    IsNot { plain: bool, depth: u64 },
    /// Behind a test.
    TestEnd { plain: bool, depth: u64 },
    /// Behind `GROUP`.
    Group,
    /// A key column comes.
    GroupKey { room: Option<u32> },
    /// Behind a key column.
    GroupKeyEnd { room: Option<u32> },
    /// Behind `ORDER`.
    Order,
    /// An order comes.
    OrderKey { room: Option<u32> },
    /// Behind the name of an order.
    OrderKeyEnd { room: Option<u32> },
    /// Behind `ASC` or `DESC`.
    DirectionEnd { room: Option<u32> },
    /// Behind `LIMIT`.
    Limit,
    /// Behind the number of the limit.
    LimitEnd,
}
