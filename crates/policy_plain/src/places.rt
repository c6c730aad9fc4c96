//! The places of chunks in a list.
ghost use Rattle.std.specs.Prelude.{◌≡◌, ◌==◌, ◌<◌, ◌≤◌, ◌+◌, ◌-◌, ℕ, All, get_or, if◌then◌else◌, length};
ghost use Rattle.scan_story.specs.Policies.{place_in};

// Notes the place of each chunk of the list, where the list's first has this place.
fn note(list: &[u32], place: u32, places: &mut [u32; 1024])
    requires small { All (λ c. c < 1024) list.now }
    requires few { place + length list.now ≤ 1025 }
    ensures { (c : ℕ) → c < 1024 → get_or places.new c 0
        ≡ (if place_in list.now c == 0 then get_or places.old c 0 else place_in list.now c + place - 1) }
{
    if let [first, rest @ ..] = list {
        note(rest, place + 1, places);
        places[*first as usize] = place;
    }
}

/// The place of each chunk in the list, from 1; 0 where it isn't there. One pass over the list.
pub fn places_in(list: &[u32]) -> [u32; 1024]
    requires small { All (λ c. c < 1024) list.now }
    requires few { length list.now ≤ 1024 }
    ensures { (c : ℕ) → c < 1024 → get_or result c 0 ≡ place_in list.now c }
{
    let mut places = [0; 1024];
    note(list, 1, &mut places);
    places
}
