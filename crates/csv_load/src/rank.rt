// The dictionary of a list of names, and the code of each name, by a sort.
ghost use Rattle.std.specs.Prelude.{◌≡◌, ◌<◌, ◌^◌, IfOk, None, length, replicate};
ghost use Rattle.csv_load.specs.Ranks.{AreInOrder, IsRanked, Keyed, key_places, key_texts};

use crate::front::front;
use std::alloc::{AllocError, Global};
use table_core::{Dict, Texts};

/// A dictionary and a code for each name: none for an empty one.
#[derive(Drop)]
pub struct Ranked {
    pub dict: Dict,
    pub codes: Vec<Option<u32>>,
}

// A name with its front and its place. The fronts decide the order of most names without a look at their bytes.
type Key<'a> = ((u128, u128), &'a [u8], u32);

// The names that aren't empty, each with its front and its place.
fn keyed<'a>(alloc: Global, names: &'a Texts) -> Result<Vec<Key<'a>>, AllocError>
    ensures { IfOk result (λ v. Keyed names.now (length names.now) v.items) }
{
    let mut order = Vec::with_capacity(alloc, names.len())?;
    for place in 0..names.len() {
        let text = names.get(place);
        if text.len() == 0 {
            continue;
        }
        if place > u32::MAX as usize {
            return Err(AllocError);
        }
        order.push((front(text), text, place as u32))?;
    }
    Ok(order)
}

fn no_codes(alloc: Global, count: usize) -> Result<Vec<Option<u32>>, AllocError>
    ensures { IfOk result (λ v. v.items ≡ replicate count None) }
{
    vec![in alloc; None; count]
}

// The texts of these keys one behind another. What then goes over them reads memory from front to back, where each name
// lies somewhere else.
fn texts_of(alloc: Global, order: &[Key<'_>]) -> Result<Texts, AllocError>
    ensures { IfOk result (λ texts. texts ≡ key_texts order.now) }
{
    let mut texts = Texts::new(alloc);
    for place in 0..order.len() {
        let (_front, text, _name) = order[place];
        texts.push(text)?;
    }
    Ok(texts)
}

// The places of these keys' names.
fn places_of(alloc: Global, order: &[Key<'_>]) -> Result<Vec<u32>, AllocError>
    ensures { IfOk result (λ v. v.items ≡ key_places order.now) }
{
    let mut places = Vec::with_capacity(alloc, order.len())?;
    for place in 0..order.len() {
        let (_front, _text, name) = order[place];
        places.push(name)?;
    }
    Ok(places)
}

// The texts in order, each once, and the code of each name.
fn assigned(
    alloc: Global,
    names: &Texts,
    texts: &Texts,
    places: &[u32],
) -> Result<Ranked, AllocError>
    requires in_order { AreInOrder names.now texts.now places.now }
    ensures ranked { IfOk result (λ r. IsRanked names.now r.dict r.codes.items) }
    ensures few { IfOk result (λ r. length r.dict < 2 ^ 32) }
{
    let mut dict = Dict::new(alloc);
    let mut codes = no_codes(alloc, names.len())?;
    for place in 0..places.len() {
        let code = dict.push(texts.get(place))?;
        codes[places[place] as usize] = Some(code);
    }
    Ok(Ranked { dict, codes })
}

/// The rising list of the distinct names that aren't empty, and the code of each name, by one sort.
pub fn rank_texts(alloc: Global, names: &Texts) -> Result<Ranked, AllocError>
    ensures ranked { IfOk result (λ r. IsRanked names.now r.dict r.codes.items) }
    ensures few { IfOk result (λ r. length r.dict < 2 ^ 32) }
{
    let mut order = keyed(alloc, names)?;
    order.sort_unstable();
    let sorted = order.as_slice();
    let texts = texts_of(alloc, sorted)?;
    let places = places_of(alloc, sorted)?;
    // The keys have the most memory here.
    drop(order);
    assigned(alloc, names, &texts, places.as_slice())
}
