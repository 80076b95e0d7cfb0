//! What the calls promise together. A law is the contract of a function that does nothing.
ghost use Rattle.css_companion_c.specs.Until.{BoundsTheWall};

/// Up to the reading that `css_companion_until` tells, the span that `css_companion_wall` tells is at most so wide. So
/// it is after further requests.
pub fn until_bounds_the_wall()
    ensures { BoundsTheWall }
{}
