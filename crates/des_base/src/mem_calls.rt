// The calls of a shelf and a sink in memory that are set to fail.
ghost use Rattle.std.specs.Prelude.{◌≡◌, nat_eq};
ghost use Rattle.std.specs.List.{list_any};

// Whether the call with this number is listed.
pub(crate) fn is_listed(failing: &[u32], call: u64) -> bool
    ensures { result ≡ list_any (nat_eq call) failing.now }
{
    failing.iter().any(|listed| call == *listed as u64)
}
