ghost use Rattle.std.specs.Prelude.{◌≡◌, suc, MatchOption};

/// The units that are left once a task took its one, or `None` where it finds none and is spent.
///
/// `Some(left)` has its `suc` in the form in which `equation` reads a task, and `None` has the zero.
pub fn take_unit(units: u64) -> Option<u64>
    ensures { MatchOption result (units ≡ 0) (λ left. units ≡ suc left) }
{
    units.checked_sub(1)
}
