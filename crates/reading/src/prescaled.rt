// X: a frequency prescaled, where 2^24 stands for 1.
ghost use Rattle.std.specs.Prelude.{◌≤◌, nat_abs};
ghost use Rattle.limits.specs.Limits.{largest_x};

#[derive(Clone, Copy)]
pub struct Prescaled {
    pub x: i64,
    ghost small: { nat_abs x ≤ largest_x },
}
