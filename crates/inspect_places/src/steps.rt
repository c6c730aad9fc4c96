// What each state goes on with: the grammar, token by token.

ghost use Rattle.std.specs.Prelude.{◌≡◌, ◌<◌, ◌+◌, ◌^◌, true, Some};
ghost use Rattle.inspect_places.specs.Steps as spec;

use crate::kind::Kind;
use crate::state::State;
use crate::word::{Size, Word};
use sql_tokens::Keyword;

/// How many more things a list takes behind its first one: 31 where limits count.
fn first_room(limited: bool) -> Option<u32>
    ensures { result ≡ spec.first_room limited }
{
    if limited { Some(31) } else { None }
}

/// The room behind one thing more, if the list takes it.
fn less(room: Option<u32>) -> Option<Option<u32>>
    ensures { result ≡ spec.less room }
{
    match room {
        None => Some(None),
        Some(0) => None,
        Some(n) => Some(Some(n - 1)),
    }
}

fn after_start(limited: bool, kind: Kind) -> Option<State>
    ensures { result ≡ spec.after_start limited kind }
{
    match kind {
        Kind::Key(Keyword::Select) => Some(State::Item {
            plain: true,
            room: first_room(limited),
        }),
        _ => None,
    }
}

fn after_item(plain: bool, room: Option<u32>, kind: Kind) -> Option<State>
    ensures { result ≡ spec.after_item plain room kind }
{
    match kind {
        Kind::Name => Some(State::ItemEnd { plain, room }),
        Kind::Key(Keyword::Count) => Some(State::Count { room }),
        Kind::Key(Keyword::Sum | Keyword::Min | Keyword::Max) => Some(State::Call { room }),
        _ => None,
    }
}

fn after_count(room: Option<u32>, kind: Kind) -> Option<State>
    ensures { result ≡ spec.after_count room kind }
{
    match kind {
        Kind::Open => Some(State::CountOpen { room }),
        _ => None,
    }
}

fn after_count_open(room: Option<u32>, kind: Kind) -> Option<State>
    ensures { result ≡ spec.after_count_open room kind }
{
    match kind {
        Kind::Star | Kind::Name => Some(State::CallEnd { room }),
        _ => None,
    }
}

fn after_call(room: Option<u32>, kind: Kind) -> Option<State>
    ensures { result ≡ spec.after_call room kind }
{
    match kind {
        Kind::Open => Some(State::CallOpen { room }),
        _ => None,
    }
}

fn after_call_open(room: Option<u32>, kind: Kind) -> Option<State>
    ensures { result ≡ spec.after_call_open room kind }
{
    match kind {
        Kind::Name => Some(State::CallEnd { room }),
        _ => None,
    }
}

fn after_call_end(room: Option<u32>, kind: Kind) -> Option<State>
    ensures { result ≡ spec.after_call_end room kind }
{
    match kind {
        Kind::Close => Some(State::ItemEnd { plain: false, room }),
        _ => None,
    }
}

fn after_item_end(plain: bool, room: Option<u32>, kind: Kind) -> Option<State>
    ensures { result ≡ spec.after_item_end plain room kind }
{
    match kind {
        Kind::Comma => match less(room) {
            Some(room) => Some(State::Item { plain, room }),
            None => None,
        },
        Kind::Key(Keyword::From) => Some(State::Table { plain }),
        _ => None,
    }
}

fn when(holds: bool, state: State) -> Option<State>
    ensures { result ≡ spec.when holds state }
{
    if holds { Some(state) } else { None }
}

/// Behind the condition, or where none stands.
fn after_all(plain: bool, kind: Kind) -> Option<State>
    ensures { result ≡ spec.after_all plain kind }
{
    match kind {
        Kind::Key(Keyword::Group) => Some(State::Group),
        Kind::Key(Keyword::Order) => when(plain, State::Order),
        Kind::Key(Keyword::Limit) => when(plain, State::Limit),
        _ => None,
    }
}

fn after_table(plain: bool, kind: Kind) -> Option<State>
    ensures { result ≡ spec.after_table plain kind }
{
    match kind {
        Kind::Name => Some(State::TableEnd { plain }),
        _ => None,
    }
}

fn after_table_end(plain: bool, kind: Kind) -> Option<State>
    ensures { result ≡ spec.after_table_end plain kind }
{
    match kind {
        Kind::Key(Keyword::Where) => Some(State::Test { plain, depth: 0 }),
        _ => after_all(plain, kind),
    }
}

fn after_test(plain: bool, depth: u64, kind: Kind) -> Option<State>
    requires { depth < 2 ^ 63 }
    ensures { result ≡ spec.after_test plain depth kind }
{
    match kind {
        Kind::Key(Keyword::Not) => Some(State::Test { plain, depth }),
        Kind::Open => Some(State::Test {
            plain,
            depth: depth + 1,
        }),
        Kind::Name => Some(State::TestName { plain, depth }),
        _ => None,
    }
}

fn after_test_name(plain: bool, depth: u64, kind: Kind) -> Option<State>
    ensures { result ≡ spec.after_test_name plain depth kind }
{
    match kind {
        Kind::Comparison => Some(State::Compared { plain, depth }),
        Kind::Key(Keyword::Is) => Some(State::Is { plain, depth }),
        _ => None,
    }
}

fn after_compared(plain: bool, depth: u64, kind: Kind) -> Option<State>
    ensures { result ≡ spec.after_compared plain depth kind }
{
    match kind {
        Kind::Minus => Some(State::Minus { plain, depth }),
        Kind::Number | Kind::Decimal | Kind::Text => Some(State::TestEnd { plain, depth }),
        _ => None,
    }
}

fn after_minus(plain: bool, depth: u64, kind: Kind) -> Option<State>
    ensures { result ≡ spec.after_minus plain depth kind }
{
    match kind {
        Kind::Number | Kind::Decimal => Some(State::TestEnd { plain, depth }),
        _ => None,
    }
}

fn after_is(plain: bool, depth: u64, kind: Kind) -> Option<State>
    ensures { result ≡ spec.after_is plain depth kind }
{
    match kind {
        Kind::Key(Keyword::Not) => Some(State::IsNot { plain, depth }),
        Kind::Key(Keyword::Null) => Some(State::TestEnd { plain, depth }),
        _ => None,
    }
}

fn after_is_not(plain: bool, depth: u64, kind: Kind) -> Option<State>
    ensures { result ≡ spec.after_is_not plain depth kind }
{
    match kind {
        Kind::Key(Keyword::Null) => Some(State::TestEnd { plain, depth }),
        _ => None,
    }
}

/// Behind a test in no parentheses.
fn after_free(plain: bool, kind: Kind) -> Option<State>
    ensures { result ≡ spec.after_free plain kind }
{
    match kind {
        Kind::Key(Keyword::And | Keyword::Or) => Some(State::Test { plain, depth: 0 }),
        _ => after_all(plain, kind),
    }
}

/// Behind a test in parentheses.
fn after_enclosed(plain: bool, depth: u64, kind: Kind) -> Option<State>
    ensures { result ≡ spec.after_enclosed plain depth kind }
{
    match kind {
        Kind::Key(Keyword::And | Keyword::Or) => Some(State::Test { plain, depth }),
        Kind::Close => Some(State::TestEnd {
            plain,
            depth: depth.saturating_sub(1),
        }),
        _ => None,
    }
}

fn after_test_end(plain: bool, depth: u64, kind: Kind) -> Option<State>
    ensures { result ≡ spec.after_test_end plain depth kind }
{
    if depth == 0 {
        after_free(plain, kind)
    } else {
        after_enclosed(plain, depth, kind)
    }
}

fn after_group(limited: bool, kind: Kind) -> Option<State>
    ensures { result ≡ spec.after_group limited kind }
{
    match kind {
        Kind::Key(Keyword::By) => Some(State::GroupKey {
            room: first_room(limited),
        }),
        _ => None,
    }
}

fn after_group_key(room: Option<u32>, kind: Kind) -> Option<State>
    ensures { result ≡ spec.after_group_key room kind }
{
    match kind {
        Kind::Name => Some(State::GroupKeyEnd { room }),
        _ => None,
    }
}

fn after_group_key_end(room: Option<u32>, kind: Kind) -> Option<State>
    ensures { result ≡ spec.after_group_key_end room kind }
{
    match kind {
        Kind::Comma => match less(room) {
            Some(room) => Some(State::GroupKey { room }),
            None => None,
        },
        _ => None,
    }
}

fn after_order(limited: bool, kind: Kind) -> Option<State>
    ensures { result ≡ spec.after_order limited kind }
{
    match kind {
        Kind::Key(Keyword::By) => Some(State::OrderKey {
            room: first_room(limited),
        }),
        _ => None,
    }
}

fn after_order_key(room: Option<u32>, kind: Kind) -> Option<State>
    ensures { result ≡ spec.after_order_key room kind }
{
    match kind {
        Kind::Name => Some(State::OrderKeyEnd { room }),
        _ => None,
    }
}

fn after_direction(room: Option<u32>, kind: Kind) -> Option<State>
    ensures { result ≡ spec.after_direction room kind }
{
    match kind {
        Kind::Comma => match less(room) {
            Some(room) => Some(State::OrderKey { room }),
            None => None,
        },
        Kind::Key(Keyword::Limit) => Some(State::Limit),
        _ => None,
    }
}

fn after_order_key_end(room: Option<u32>, kind: Kind) -> Option<State>
    ensures { result ≡ spec.after_order_key_end room kind }
{
    match kind {
        Kind::Key(Keyword::Asc | Keyword::Desc) => Some(State::DirectionEnd { room }),
        _ => after_direction(room, kind),
    }
}

fn after_limit(kind: Kind) -> Option<State>
    ensures { result ≡ spec.after_limit kind }
{
    match kind {
        Kind::Number => Some(State::LimitEnd),
        _ => None,
    }
}

/// The state behind a token of this kind, if a query goes on with it. How large a number is doesn't count here.
fn step(limited: bool, state: State, kind: Kind) -> Option<State>
    requires { spec.opened state < 2 ^ 63 }
    ensures { result ≡ spec.step limited state kind }
{
    match state {
        State::Start => after_start(limited, kind),
        State::Item { plain, room } => after_item(plain, room, kind),
        State::Count { room } => after_count(room, kind),
        State::CountOpen { room } => after_count_open(room, kind),
        State::Call { room } => after_call(room, kind),
        State::CallOpen { room } => after_call_open(room, kind),
        State::CallEnd { room } => after_call_end(room, kind),
        State::ItemEnd { plain, room } => after_item_end(plain, room, kind),
        State::Table { plain } => after_table(plain, kind),
        State::TableEnd { plain } => after_table_end(plain, kind),
        State::Test { plain, depth } => after_test(plain, depth, kind),
        State::TestName { plain, depth } => after_test_name(plain, depth, kind),
        State::Compared { plain, depth } => after_compared(plain, depth, kind),
        State::Minus { plain, depth } => after_minus(plain, depth, kind),
        State::Is { plain, depth } => after_is(plain, depth, kind),
        State::IsNot { plain, depth } => after_is_not(plain, depth, kind),
        State::TestEnd { plain, depth } => after_test_end(plain, depth, kind),
        State::Group => after_group(limited, kind),
        State::GroupKey { room } => after_group_key(room, kind),
        State::GroupKeyEnd { room } => after_group_key_end(room, kind),
        State::Order => after_order(limited, kind),
        State::OrderKey { room } => after_order_key(room, kind),
        State::OrderKeyEnd { room } => after_order_key_end(room, kind),
        State::DirectionEnd { room } => after_direction(room, kind),
        State::Limit => after_limit(kind),
        State::LimitEnd => None,
    }
}

/// Whether a number of this size may stand there.
fn takes(limited: bool, state: State, size: Size) -> bool
    ensures { result ≡ spec.takes limited state size }
{
    match state {
        State::Compared { .. } => matches!(size, Size::Limit | Size::Positive),
        State::Minus { .. } => !matches!(size, Size::TooLarge),
        State::Limit => !limited || matches!(size, Size::Limit),
        _ => true,
    }
}

/// The state behind the token, if a query goes on with it.
pub fn after(limited: bool, state: State, word: Word) -> Option<State>
    requires { spec.opened state < 2 ^ 63 }
    ensures { result ≡ spec.step_sized limited state word.kind word.size }
{
    if takes(limited, state, word.size) {
        step(limited, state, word.kind)
    } else {
        None
    }
}

/// Whether a query may end there.
fn may_end(state: State) -> bool
    ensures { result ≡ spec.may_end state }
{
    match state {
        State::TableEnd { .. } | State::GroupKeyEnd { .. } | State::LimitEnd => true,
        State::TestEnd { depth, .. } => depth == 0,
        _ => false,
    }
}

/// Whether a token of this kind may stand there, or the end.
pub fn stands(limited: bool, state: State, kind: Kind) -> bool
    requires { spec.opened state < 2 ^ 63 }
    ensures { result ≡ spec.stands limited state kind }
{
    match kind {
        Kind::End => may_end(state),
        _ => step(limited, state, kind).is_some(),
    }
}

/// The greatest number that may stand there, if there is one.
pub fn most(limited: bool, state: State) -> Option<u64>
    ensures { result ≡ spec.most limited state }
{
    match state {
        State::Compared { .. } => Some((1 << 63) - 1),
        State::Minus { .. } => Some(1 << 63),
        State::Limit => {
            if limited {
                return Some(4096);
            }
            None
        }
        _ => None,
    }
}
