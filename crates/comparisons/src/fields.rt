// Two values side by side: in how many of their fields they differ.
ghost use Rattle.std.specs.Prelude.{◌≡◌, ◌≤◌, cond, not, count_by, length};
ghost use Rattle.std.specs.List.{zip};
ghost use Rattle.comparisons.specs.Differing.{differing};
ghost use Rattle.comparisons.specs.Fields.{run_fields};

use riders::Run;

// Two values of one field: 1 where they differ.
pub(crate) fn in_field<T: PartialEq + Copy>(one: T, other: T) -> u64
    ensures { (result ≡ cond (T.eq one other) 0 1) × (result ≤ 1) }
{
    u64::from(one != other)
}

// Two arrays, place by place. The count is turned by `as`, since Rust has no `From` of a usize for a u64.
pub(crate) fn in_places<T: PartialEq>(one: &[T], other: &[T]) -> u64
    ensures { (result ≡ count_by (λ pair. not (T.eq pair.0 pair.1)) (zip one.now other.now)) × (result ≤ length one.now) }
{
    one.iter()
        .zip(other)
        .filter(|(one, other)| one != other)
        .count() as u64
}

pub(crate) fn in_run(one: Run, other: Run) -> u64
    ensures { (result ≡ differing (run_fields one) (run_fields other)) × (result ≤ 2) }
{
    in_field(one.factor, other.factor) + in_field(one.due, other.due)
}
