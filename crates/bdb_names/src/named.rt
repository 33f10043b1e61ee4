// Worlds by number and path.
use bdb_base::Path;

/// A world: its number, and the path whose world it is.
#[derive(Drop)]
pub struct NamedWorld {
    pub wid: u32,
    pub path: Path,
}
