ghost use Rattle.std.specs.Prelude.{◌≡◌, ◌≤◌, drop, length};

/// The place after this one, and at the end the end.
pub fn past<T>(items: &[T], at: usize) -> usize
    requires { at ≤ length items.now }
    ensures left { drop result items.now ≡ drop 1 (drop at items.now) }
    ensures within { result ≤ length items.now }
{
    if at < items.len() { at + 1 } else { at }
}
