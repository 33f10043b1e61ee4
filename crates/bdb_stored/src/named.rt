// Worlds by number.
ghost use Rattle.std.specs.Prelude.{◌≡◌, ◌≤◌, length, nat_eq};
ghost use Rattle.std.specs.List.{position};
ghost use Rattle.bdb_stored.specs.Worlds.{place_of_number};

use bdb_names::NamedWorld;

/// The place of the world of a number among worlds; their count where it is not there.
pub fn place_of_number(worlds: &[NamedWorld], wid: u32) -> usize
    ensures value { result ≡ place_of_number worlds.now wid }
    ensures within { result ≤ length worlds.now }
{
    match position_of(worlds, wid) {
        Some(at) => at,
        None => worlds.len(),
    }
}

// The place of the world of a number, if it is there.
fn position_of(worlds: &[NamedWorld], wid: u32) -> Option<usize>
    ensures { result ≡ position (λ x. nat_eq x.wid wid) worlds.now }
{
    worlds.iter().position(|world| world.wid == wid)
}
