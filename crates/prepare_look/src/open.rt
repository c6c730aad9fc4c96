// Quotes that are open at the end of a text.
ghost use Rattle.std.specs.Prelude.{◌≡◌, false};
ghost use Rattle.csv.specs.declared.parser.State.TheVariants as st;
ghost use Rattle.prepare_look.specs.Spots.{mark_after};
ghost use Rattle.prepare_look.specs.Walk.{format_of, open_from};

use crate::place::Marks;
use crate::spot::Spot;

// The line of the last quotes behind the byte between these spots.
fn mark_after(spot: &Spot, next: &Spot, mark: usize) -> usize
    ensures { result ≡ mark_after spot.now next.now mark }
{
    if spot.place.opens(next.place) {
        return spot.line;
    }
    mark
}

/// The line, counted from 1, on which the quotes begin that are open at the end of a text without a byte order mark.
pub fn open_quote(marks: Marks, text: &[u8]) -> Option<usize>
    ensures { result ≡ open_from (format_of marks) st.StartRecord false 1 1 text.now }
{
    let mut spot = Spot::first();
    let mut mark = 1;
    for i in 0..text.len() {
        let next = spot.after(marks, text[i]);
        mark = mark_after(&spot, &next, mark);
        spot = next;
    }
    if spot.place.is_quoted() {
        return Some(mark);
    }
    None
}
