// The rows that are handed down over suffix links.
ghost use Rattle.std.specs.Prelude.{◌≡◌};
ghost use Rattle.bdb_val.specs.GroupChanges.{handed_down};
ghost use Rattle.bdb_val.specs.Settling.{same_mark};

use bdb_base::Sign;

/// Whether two marks are one, or there is none of either.
pub fn same_mark(a: Option<(Sign, bool)>, b: Option<(Sign, bool)>) -> bool
    ensures { result ≡ same_mark a b }
{
    match (a, b) {
        (None, None) => true,
        (Some(m), Some(n)) => m.0 == n.0 && m.1 == n.1,
        _ => false,
    }
}

/// What a row hands down over a suffix link: its sign, but no plus where that is barred.
pub fn handed_down(barred: bool, from: Option<(Sign, bool)>) -> Option<(Sign, bool)>
    ensures { result ≡ handed_down barred from }
{
    match from {
        Some((sign, _)) => {
            if sign == Sign::Plus && barred {
                None
            } else {
                Some((sign, false))
            }
        }
        None => None,
    }
}
