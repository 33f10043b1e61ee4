// The reply to `why`.
ghost use Rattle.std.specs.Prelude.{◌≡◌, ◌++◌, IfOk, OnOk};
ghost use Rattle.bdb_reasons.specs.WhyReplies.{why_reply};

use crate::lines::{append_other, append_others, append_own};
use bdb_base::{Catalog, List, Sign, Tuple};
use bdb_render::append_count;
use bdb_why::Why;
use std::alloc::{AllocError, Global};

/// For how many bytes a reply has room from the start. Most certificates have no more.
const USUAL_LENGTH: usize = 128;

/// The reply to the question why a path believes a signed tuple, or doesn't: the lines of this certificate, and then
/// their number. A certificate that says yes has one line, `yes stated` or `yes other`. One that says no has the line
/// `no`, and then one for the reason of the signed tuple itself and for that of each other tuple.
pub fn why_reply(
    alloc: Global,
    catalog: &Catalog,
    path: &[u32],
    tuple: &Tuple,
    sign: Sign,
    why: &Why,
) -> Result<List<u8>, AllocError>
    ensures { IfOk result (λ text. text ≡ why_reply catalog.now path.now tuple.now sign why.now) }
{
    let mut out = Vec::with_capacity(alloc, USUAL_LENGTH)?;
    append_why(&mut out, catalog, path, tuple, sign, why)?;
    Ok(List::from_vec(out))
}

/// Appends the lines of a certificate, and their number.
fn append_why(
    out: &mut Vec<u8>,
    catalog: &Catalog,
    path: &[u32],
    tuple: &Tuple,
    sign: Sign,
    why: &Why,
) -> Result<(), AllocError>
    ensures { OnOk result
        (out.new.items ≡ out.old.items ++ why_reply catalog.now path.now tuple.now sign why.now) }
{
    match why {
        Why::Stated { reason } => {
            out.extend_from_slice(b"yes ")?;
            append_own(out, catalog, path, tuple, sign, reason)?;
            append_count(out, 1)
        }
        Why::Other { found } => {
            out.extend_from_slice(b"yes ")?;
            append_other(out, catalog, path, found)?;
            append_count(out, 1)
        }
        Why::Absent { own, others } => {
            out.extend_from_slice(b"no\n")?;
            append_own(out, catalog, path, tuple, sign, own)?;
            append_others(out, catalog, path, others)?;
            append_count(out, others.as_slice().len() + 2)
        }
    }
}
