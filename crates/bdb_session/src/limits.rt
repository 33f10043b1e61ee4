// Which limit of a base is passed.
ghost use Rattle.std.specs.Prelude.{◌≡◌};
ghost use Rattle.bdb_session.specs.Sizes.{limit_passed};

use bdb_base::What;
use bdb_base::limits::{MOST_RELATIONS, MOST_USERS};
use bdb_canon::Counts;
use bdb_update::size_passed;

/// The first limit that is passed by so many users and relations, and then by the worlds, tuples and statements.
pub(crate) fn limit_passed(users: usize, rels: usize, counts: Counts) -> Option<What>
    ensures { result ≡ limit_passed users rels counts }
{
    if users > MOST_USERS {
        return Some(What::Users);
    }
    if rels > MOST_RELATIONS {
        return Some(What::Relations);
    }
    size_passed(&counts)
}
