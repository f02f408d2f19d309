//! Writing a transaction: the words of each of its places, and the places of an image filled with them.
ghost use Rattle.std.specs.Prelude.{◌≡◌, ◌+◌, ◌*◌, ◌<◌, ◌≤◌, [], length, slice_index_or, true, false, MatchOption};
ghost use Rattle.ringlaws.specs.Layout.{head_of, tail_of};
ghost use Rattle.ringlaws.specs.TxnInfo.{numbers_of, info_unit, count_limit, taken};
ghost use Rattle.ringlaws.specs.Spells.{units_of};
ghost use Rattle.ringunits.specs.Images.{contents_of, Filled, FilledPlaces, can_append, Appends};

use crate::header::{HEAD_WORD, TAIL_WORD};
use crate::info::{COUNT_LIMIT, MAGIC, places_taken};
use crate::places::{MOST_PLACES, Ring, place_after};
use ringlaws::setting::Setting;

/// The TxnInfo of these numbers.
pub fn info_words(numbers: &[u64]) -> [u64; 32]
    requires { length numbers.now ≤ count_limit }
    ensures { result ≡ info_unit numbers.now }
{
    let mut words = [0; 32];
    words[..numbers.len()].copy_from_slice(numbers);
    words[30] = numbers.len() as u64;
    words[31] = MAGIC;
    words
}

/// The TxnInfo of these settings.
pub fn info_of(settings: &[Setting]) -> [u64; 32]
    requires { length settings.now ≤ count_limit }
    ensures { result ≡ info_unit (numbers_of settings.now) }
{
    let mut numbers = [0; 30];
    for (i, setting) in settings.iter().enumerate() {
        numbers[i] = setting.number;
    }
    info_words(&numbers[..settings.len()])
}

/// The words of a transaction's place: its records in their order, then its TxnInfo.
pub fn place_words(settings: &[Setting], index: usize) -> [u64; 32]
    requires { (length settings.now ≤ count_limit) × (index < taken (length settings.now)) }
    ensures { result ≡ slice_index_or (units_of settings.now) index [] }
{
    if index < settings.len() {
        settings[index].unit
    } else {
        info_of(settings)
    }
}

/// Fills a unit of an image. Nothing else writes a place.
pub fn fill(image: &mut [u64], unit: usize, words: &[u64; 32])
    requires { (unit ≤ 255) × (32 * (unit + 1) ≤ length image.old) }
    ensures { Filled unit words.now image.old image.new }
{
    image[32 * unit..32 * (unit + 1)].copy_from_slice(words);
}

/// Fills the places of a transaction, from a place on.
fn fill_places(image: &mut [u64], places: usize, place: usize, settings: &[Setting])
    requires { (places ≤ 255) × ((place < places) × ((32 * (places + 1) ≤ length image.old) × ((length settings.now ≤ count_limit) × (taken (length settings.now) < places)))) }
    ensures { FilledPlaces places place (taken (length settings.now)) (units_of settings.now) image.old image.new }
{
    // Kept: the index is the loop's own subject, since it names both the unit and its place.
    for i in 0..places_taken(settings.len()) {
        let words = place_words(settings, i);
        fill(image, place_after(places, place, i) + 1, &words);
    }
}

/// The ring of so many places in an image, if it has one with room for a transaction of so many records.
fn ring_with_room(image: &[u64], places: usize, count: usize) -> Option<Ring>
    ensures { MatchOption result (can_append places image.now count ≡ false) (λ r. (can_append places image.now count ≡ true) × (r.places ≡ places) × (r.head ≡ head_of (contents_of image.now)) × (r.tail ≡ tail_of (contents_of image.now))) }
{
    if places > MOST_PLACES || image.len() < 32 * (places + 1) {
        return None;
    }
    let ring = Ring {
        places,
        head: image[HEAD_WORD] as usize,
        tail: image[TAIL_WORD] as usize,
    };
    if !ring.is_valid() || count < 1 || count > COUNT_LIMIT {
        return None;
    }
    if ring.used() + places_taken(count) > places - 1 {
        return None;
    }
    Some(ring)
}

/// Whether an image holds a ring of so many places, with room for a transaction of so many records.
pub fn can_append(image: &[u64], places: usize, count: usize) -> bool
    ensures { result ≡ can_append places image.now count }
{
    ring_with_room(image, places, count).is_some()
}

/// Appends a transaction to the ring of an image and moves its tail: the places that are used then, or `None`, and nothing
/// changed, if the image holds no such ring or has no room. One place always stays unused.
pub fn append(image: &mut [u64], places: usize, settings: &[Setting]) -> Option<usize>
    ensures { Appends places settings.now image.old result image.new }
{
    let ring = ring_with_room(image, places, settings.len())?;
    let taken = places_taken(settings.len());
    fill_places(image, places, ring.tail, settings);
    image[TAIL_WORD] = place_after(places, ring.tail, taken) as u64;
    Some(ring.used() + taken)
}
