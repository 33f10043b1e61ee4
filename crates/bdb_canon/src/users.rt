// The numbers of the live users.
ghost use Rattle.std.specs.Prelude.{◌≡◌, ◌<◌, ◌≤◌, ◌^◌, length, IfOk};
ghost use Rattle.bdb_base.specs.Queries.{user_numbers};

use bdb_base::{List, UserSlot, is_user, live_count};
use std::alloc::{AllocError, Global};

/// The numbers of all live users, in order.
#[tactic(auto, using(crate::proofs::UserLemmas::next_number, crate::proofs::UserLemmas::no_number, crate::proofs::UserLemmas::all_numbers))]
pub fn user_numbers(alloc: Global, users: &[UserSlot]) -> Result<List<u32>, AllocError>
    requires { length users.now < 2 ^ 32 }
    ensures { IfOk result (λ numbers. numbers ≡ user_numbers users.now) }
{
    let mut numbers = List::new(alloc);
    for at in 0..users.len() {
        let uid = at as u32 + 1;
        if !is_user(users, uid) {
            continue;
        }
        numbers.push(uid)?;
    }
    Ok(numbers)
}

/// How many live users there are, which are no more than places.
#[tactic(auto, using(crate::proofs::UserLemmas::users_are_counted, crate::proofs::UserLemmas::names_within))]
pub fn user_count(users: &[UserSlot]) -> usize
    ensures count { result ≡ length (user_numbers users.now) }
    ensures few { result ≤ length users.now }
{
    live_count(users)
}
