// A row of a world by its bytes.

/// A row of a world: the bytes of its tuple, and those of its sign and mark.
#[derive(Clone, Copy)]
pub struct WorldRow<'a> {
    pub tuple: &'a [u8],
    pub mark: &'a [u8],
}
