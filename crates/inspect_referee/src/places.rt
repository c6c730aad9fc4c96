//! The places of chunks in a list.
ghost use Rattle.std.specs.Prelude.{◌≡◌, ◌==◌, ◌<◌, ℕ, get_or, if◌then◌else◌};
ghost use Rattle.scan_story.specs.Policies.{place_in};

// The chunk, where it is below 1024, has this place.
fn note(places: &mut [u64; 1024], c: u64, place: u64)
    ensures { (x : ℕ) → x < 1024 → get_or places.new x 0 ≡ (if c == x then place else get_or places.old x 0) }
{
    if c < 1024 {
        places[c as usize] = place;
    }
}

/// The place of each chunk below 1024 in the list, from 1; 0 where it isn't there. One pass over the list.
pub fn places_in(list: &[u64]) -> [u64; 1024]
    ensures { (c : ℕ) → c < 1024 → get_or result c 0 ≡ place_in list.now c }
{
    let mut places = [0; 1024];
    // From the end, so that of two places the first one stays.
    let mut left = list.len();
    while left > 0 {
        left -= 1;
        note(&mut places, list[left], left as u64 + 1);
    }
    places
}
