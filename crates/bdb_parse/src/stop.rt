// Tokens that end a part of a command.

/// A token that ends a part of a list, or a list.
#[derive(Clone, Copy, Drop)]
pub enum Stop {
    Comma,
    Close,
    And,
    From,
    Where,
}
