// Beginnings and ends of paths.
ghost use Rattle.std.specs.Prelude.{◌≡◌};
ghost use Rattle.bdb_base.specs.Alternation.{tail};
ghost use Rattle.bdb_base.specs.Segments.{is_prefix, is_suffix};

/// Whether a path is a beginning of another, which it may be whole.
pub fn path_is_prefix(a: &[u32], b: &[u32]) -> bool
    ensures { result ≡ is_prefix a.now b.now }
{
    b.starts_with(a)
}

/// Whether a path is an end of another, which it may be whole.
pub fn path_is_suffix(a: &[u32], b: &[u32]) -> bool
    ensures { result ≡ is_suffix a.now b.now }
{
    b.ends_with(a)
}

/// The path without its first user, who is the outermost believer; of the empty path it is empty.
pub fn path_tail(p: &[u32]) -> &[u32]
    ensures { result.now ≡ tail p.now }
{
    match p {
        [] => p,
        [_, rest @ ..] => rest,
    }
}
