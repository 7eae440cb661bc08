// The calls at which a source or a sink in memory is to fail.
ghost use Rattle.std.specs.Prelude.{◌≡◌, nat_eq};
ghost use Rattle.std.specs.List.{list_any};

/// Whether the call with this number, counted from 1, is one of those that are to fail.
pub fn fails_at(failing: &[u32], call: u64) -> bool
    ensures { result ≡ list_any (λ n. nat_eq n call) failing.now }
{
    failing.iter().any(|number| *number as u64 == call)
}
