// The users of a catalog, by number and by place.
ghost use Rattle.std.specs.Prelude.{◌≡◌, ◌-◌, ◌≤◌, ◌<◌, filter, length, slice_set};
ghost use Rattle.std.specs.Option.{is_some, option_copied};
ghost use Rattle.bdb_base.specs.Bases.{is_called, is_user, live_name, name_at, user_names};
ghost use Rattle.bdb_base.specs.Queries.{user_name};

use crate::kinds::UserSlot;
use crate::list::List;
use crate::text::{Txt, is_same_text};

impl UserSlot {
    /// The name of a live user; none of one who is gone.
    pub fn name(&self) -> Option<&Txt>
        ensures { option_copied result ≡ live_name self.now }
    {
        match self {
            UserSlot::Live(name) => Some(name),
            UserSlot::Gone => None,
        }
    }
}

/// Whether the user of a place is live, and is called so.
pub fn is_called(name: &Txt, user: &UserSlot) -> bool
    ensures { result ≡ is_called name.now user.now }
{
    match user {
        UserSlot::Live(live) => is_same_text(live, name),
        UserSlot::Gone => false,
    }
}

/// The name of the user at a place, the first of which is 0; none where he is gone, and past the last place.
pub fn name_at(users: &[UserSlot], at: usize) -> Option<&Txt>
    ensures { option_copied result ≡ name_at users.now at }
{
    match users.get(at) {
        Some(slot) => slot.name(),
        None => None,
    }
}

/// Whether a number is that of a live user: the places are numbered from 1.
pub fn is_user(users: &[UserSlot], uid: u32) -> bool
    ensures { result ≡ is_user users.now uid }
{
    uid > 0 && name_at(users, uid as usize - 1).is_some()
}

/// The name of a live user, by his number; none where it is no live user's.
#[tactic(auto, using(crate::proofs::UserLemmas::no_name_of_nobody, crate::proofs::UserLemmas::name_by_place))]
pub fn user_name(users: &[UserSlot], uid: u32) -> Option<&Txt>
    ensures { option_copied result ≡ user_name users.now uid }
{
    if uid == 0 {
        return None;
    }
    name_at(users, uid as usize - 1)
}

/// How many live users there are.
#[tactic(auto, using(crate::proofs::UserLemmas::live_are_counted))]
pub fn live_count(users: &[UserSlot]) -> usize
    ensures { result ≡ length (user_names users.now) }
{
    count_live(users)
}

// How many places have a live user.
fn count_live(users: &[UserSlot]) -> usize
    ensures { result ≡ length (filter (λ s. is_some (live_name s)) users.now) }
{
    users.iter().filter(|slot| is_live(slot)).count()
}

// Whether the user of a place is live.
fn is_live(slot: &UserSlot) -> bool
    ensures { result ≡ is_some (live_name slot.now) }
{
    slot.name().is_some()
}

/// Lets the place of a number be this one.
pub fn set_slot(users: &mut List<UserSlot>, uid: u32, slot: UserSlot)
    requires above { 0 < uid }
    requires within { uid ≤ length users.old }
    ensures { users.new ≡ slice_set users.old (uid - 1) slot }
{
    users.set(uid as usize - 1, slot);
}
