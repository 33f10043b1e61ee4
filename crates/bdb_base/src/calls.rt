// The numbers of calls.
ghost use Rattle.std.specs.Prelude.{◌≡◌};
ghost use Rattle.bdb_base.specs.Causes.{is_listed};

/// Whether the number of a call is listed, where these are the calls that fail.
pub fn is_listed(fails: &[u32], call: u64) -> bool
    ensures { result ≡ is_listed call fails.now }
{
    fails.iter().any(|fail| call == u64::from(*fail))
}
