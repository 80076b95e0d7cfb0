use css_num::Text;

/// A call of a spawner that was answered, and its answer.
#[derive(Clone, Copy)]
pub enum Happening<'a> {
    Starts(&'a [Text], &'a [u8]),
    Finishes(i32),
}
