// What holds of the definitions.

ghost use Rattle.std.specs.Prelude.{◌≡◌, List};
ghost use Rattle.sql_text.specs.Grammar.{QueryTree, Reads, Token};
ghost use Rattle.inspect_places.specs.Names as spec;
ghost use Rattle.inspect_places.specs.Standing.{NamesStand};

/// The names among the tokens of a query are the names of the query, in order, each with the part that it plays: a law.
/// It does nothing.
pub fn names_of_a_query()
    ensures { (ts : List Token) (q : QueryTree) → Reads ts q → spec.somes (spec.names_at ts) ≡ spec.query_names q }
{}

/// A name for which a query is refused stands among the tokens of its text: its place is a token that is this name,
/// and never the end of the text. A law; it does nothing.
pub fn refused_names_stand()
    ensures { NamesStand }
{}
