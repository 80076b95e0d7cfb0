//! What is proved of the definitions alone. Each law is the contract of a
//! function that does nothing.

ghost use Rattle.css_tree.specs.Conversions.{NoneCommonIsTwoRoots};

/// No clock of a forest is above both of two exactly where they have different
/// roots.
pub fn none_common_is_two_roots()
    ensures { NoneCommonIsTwoRoots }
{}
