//! Tables of numbers in which a value is found at once.
ghost use Rattle.std.specs.Prelude.{◌≡◌, ◌<◌, true, length, MatchOption};
ghost use Rattle.set_pool.specs.Sets.{is_in};
ghost use Rattle.set_pool.specs.Tables.{IsProbed, IsSpot, home_of, next, none, taken};

/// What a free slot has.
pub(crate) const NONE: u32 = 4_294_967_295;

/// The free slot for the value, or none where the table has it.
pub(crate) fn spot_of(table: &[u32], value: u32) -> Option<usize>
    requires value { value < none }
    requires probed { IsProbed table.now }
    requires room { taken table.now < length table.now }
    ensures { MatchOption result (is_in value table.now ≡ true) (IsSpot table.now value) }
{
    let length = table.len();
    let mut place = home(value, length);
    for _turn in 0..length {
        let there = table[place];
        if there == value {
            return None;
        }
        if there == NONE {
            return Some(place);
        }
        place = after(place, length);
    }
    None
}

// The place after this one, and the first after the last.
fn after(place: usize, length: usize) -> usize
    requires { place < length }
    ensures next { result ≡ next length place }
    ensures within { result < length }
{
    if place + 1 == length { 0 } else { place + 1 }
}

// The place at which the walk of a value begins.
#[tactic(auto, unfolding(crate::specs::Tables::home_of))]
fn home(value: u32, length: usize) -> usize
    requires { 0 < length }
    ensures home { result ≡ home_of length value }
    ensures within { result < length }
{
    ((value as u64).wrapping_mul(0x9E37_79B9_7F4A_7C15) >> 32) as usize & (length - 1)
}
