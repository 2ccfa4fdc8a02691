ghost use Rattle.std.specs.Prelude.{◌≡◌, true, false};
ghost use Rattle.std.specs.Ordering.{partial_lt};

// The number if it is below the count, and else the number's default, which is 0.
pub fn within<T: PartialOrd + Default + Copy + Drop>(count: T, number: T) -> T
    ensures inside { partial_lt T.partial_cmp number count ≡ true → result ≡ number }
    ensures outside { partial_lt T.partial_cmp number count ≡ false → T.is_default result }
{
    if number < count { number } else { T::default() }
}
