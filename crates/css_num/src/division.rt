ghost use Rattle.std.specs.Prelude.{◌≡◌, ◌<◌, ◌^◌, pos, ◌<ℤ◌, unsigned_abs};
ghost use Rattle.css_num.specs.Division as division;

/// `a / b`, rounded down, for `b` above 0 and `a` below 2^126 either way.
pub fn floor_div(a: i128, b: i128) -> i128
    requires positive { pos 0 <ℤ b }
    requires small { unsigned_abs a < 2 ^ 126 }
    ensures value { result ≡ division.floor_div a (unsigned_abs b) }
    ensures meaning { division.IsFloor a (unsigned_abs b) result }
{
    a.div_euclid(b)
}

/// `a / b`, rounded up, for `b` above 0 and `a` below 2^126 either way.
pub fn ceil_div(a: i128, b: i128) -> i128
    requires positive { pos 0 <ℤ b }
    requires small { unsigned_abs a < 2 ^ 126 }
    ensures value { result ≡ division.ceil_div a (unsigned_abs b) }
    ensures meaning { division.IsCeiling a (unsigned_abs b) result }
{
    -(-a).div_euclid(b)
}
