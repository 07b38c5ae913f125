// The page load, the places it fills, and its way into the array.
#![tactic(auto)]

ghost use Rattle.std.specs.Prelude.{◌≡◌};
ghost use Rattle.page.specs.Page.{place_of, next_in_page, next_in_array, byte_at, empty_load, filled_of, lay_of, store_of, any_marked};

use ground::kinds::Kind;
use part::state::{BusAddress, Load, PAGE, Place};

// The place that a bus address names: as many low bits as the array has.
pub fn place_of(kind: Kind, address: BusAddress) -> Place
    ensures { result ≡ place_of kind address }
{
    Place(address.0.checked_rem(kind.size).unwrap_or(address.0))
}

// The next place of the same page, the last going to the first.
pub fn next_in_page(place: Place) -> Place
    ensures { result ≡ next_in_page place }
{
    let p = place.0;
    Place(p / PAGE * PAGE + (p % PAGE + 1) % PAGE)
}

// The next place of the array, the last going to the first.
pub fn next_in_array(kind: Kind, place: Place) -> Place
    ensures { result ≡ next_in_array kind place }
{
    match place.0.checked_add(1) {
        Some(next) if next < kind.size => Place(next),
        _ => Place(0),
    }
}

// A load with no byte.
pub fn empty() -> Load
    ensures { result ≡ empty_load }
{
    Load {
        bytes: [0; 64],
        marks: [false; 64],
    }
}

// The load with a byte put at a place of its page.
pub fn filled(mut load: Load, place: Place, byte: u8) -> Load
    ensures { result ≡ filled_of load place byte }
{
    let index = usize::from(place.0 % PAGE);
    load.bytes[index] = byte;
    load.marks[index] = true;
    load
}

// Whether any byte has come.
pub fn marked(marks: [bool; 64]) -> bool
    ensures { result ≡ any_marked marks }
{
    marks.contains(&true)
}

// The byte at a place, 0 beyond the array.
pub fn fetched(array: &[u8], place: Place) -> u8
    ensures { result ≡ byte_at array.now place }
{
    array.get(usize::from(place.0)).copied().unwrap_or(0)
}

// Lays the loaded bytes over what starts at the page's first byte.
fn lay(page: &mut [u8], load: Load)
    ensures { page.new ≡ lay_of load.marks load.bytes page.old }
{
    for (index, (mark, byte)) in load.marks.iter().zip(&load.bytes).enumerate() {
        if *mark && index < page.len() {
            page[index] = *byte;
        }
    }
}

// The load goes into the part of the array that starts at the place's page.
pub fn store(array: &mut [u8], place: Place, load: Load)
    ensures { array.new ≡ store_of place load array.old }
{
    let first = usize::from(place.0 / PAGE * PAGE);
    if first < array.len() {
        lay(&mut array[first..], load);
    }
}
