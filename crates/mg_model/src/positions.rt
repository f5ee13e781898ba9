/// One position of an alternative of a digit map: the symbols that it accepts, each by its place among 0 to 9, E, F
/// (H.248.1 section 7.1.14).
#[derive(Clone, Copy, PartialEq, Eq)]
pub struct Position {
    /// Whether it accepts the symbol of each place.
    pub accepts: [bool; 12],
}
