// The reply to a piece.
ghost use Rattle.std.specs.Prelude.{◌≡◌, true, false};

use bdb_base::List;

/// The reply to a piece: its bytes, whether the piece was accepted, and how many answers an accepted query has; 0 for all
/// else.
#[derive(Drop)]
pub struct Reply {
    pub accepted: bool,
    pub answers: u32,
    pub text: List<u8>,
}

impl Reply {
    /// The reply to what was accepted and has no answers.
    pub(crate) fn accepted(text: List<u8>) -> Reply
        ensures text { result.text ≡ text }
        ensures accepted { result.accepted ≡ true }
        ensures answers { result.answers ≡ 0 }
    {
        Reply {
            accepted: true,
            answers: 0,
            text,
        }
    }

    /// The reply to what was refused.
    pub(crate) fn refused(text: List<u8>) -> Reply
        ensures text { result.text ≡ text }
        ensures refused { result.accepted ≡ false }
        ensures answers { result.answers ≡ 0 }
    {
        Reply {
            accepted: false,
            answers: 0,
            text,
        }
    }
}
