// Names by their numbers.
ghost use Rattle.std.specs.Prelude.{◌≡◌, ◌+◌};
ghost use Rattle.bdb_base.specs.Bases.{is_user};
ghost use Rattle.bdb_base.specs.Texts.{user_text};
ghost use Rattle.bdb_render.specs.Replies.{relation_name};
ghost use Rattle.bdb_render.specs.Tables.{world_path};

use bdb_base::{Catalog, name_at};
use bdb_canon::Canon;

/// The name of a relation; empty where there is none of that number.
pub fn relation_name(catalog: &Catalog, rel: u32) -> &[u8]
    ensures { result.now ≡ relation_name catalog.now rel }
{
    match catalog.rels.get(rel as usize) {
        Some(def) => def.name.as_bytes(),
        None => &[],
    }
}

/// The name of a live user; empty where there is none of that number.
pub fn user_text(catalog: &Catalog, uid: u32) -> &[u8]
    ensures { result.now ≡ user_text catalog.now uid }
{
    match bdb_base::user_name(catalog.users.as_slice(), uid) {
        Some(name) => name.as_bytes(),
        None => &[],
    }
}

/// The name of the live user at a place, whose number is one more; empty where there is none.
#[tactic(auto, using(crate::proofs::UserLemmas::name_after))]
pub fn user_name_at(catalog: &Catalog, at: usize) -> &[u8]
    ensures { result.now ≡ user_text catalog.now (at + 1) }
{
    match name_at(catalog.users.as_slice(), at) {
        Some(name) => name.as_bytes(),
        None => &[],
    }
}

/// Whether there is a live user at a place, whose number is one more.
#[tactic(auto, using(crate::proofs::UserLemmas::user_after))]
pub fn is_user_at(catalog: &Catalog, at: usize) -> bool
    ensures { result ≡ is_user catalog.now.users (at + 1) }
{
    name_at(catalog.users.as_slice(), at).is_some()
}

/// The path of the state at a place; empty where there is none.
pub fn world_path(canon: &Canon, at: u32) -> &[u32]
    ensures { result.now ≡ world_path canon.now at }
{
    match canon.worlds.get(at as usize) {
        Some(world) => world.path.as_slice(),
        None => &[],
    }
}
