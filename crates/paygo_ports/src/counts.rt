// The counts that every source, sink and flash keeps.
ghost use Rattle.std.specs.Prelude.{◌≡◌};
ghost use Rattle.paygo_spec.specs.Faults.{Rose, raised};

/// One fault more. The count stands still at 2^64 - 1.
pub fn count_fault(count: &mut u64)
    ensures { Rose count.old count.new }
{
    *count = count.saturating_add(1);
}

/// So many bytes or calls more. The count stands still at 2^64 - 1.
pub fn count_taken(count: &mut u64, n: usize)
    ensures { count.new ≡ raised count.old n }
{
    *count = count.saturating_add(n as u64);
}
