// The bytes of a place, of which a few lie in the value itself.
ghost use Rattle.std.specs.Prelude.{◌≡◌, ◌≤◌, ◌∷◌, IfOk, length};
ghost use Rattle.bdb_memory.specs.Places.{place_in, IsPadded};

use crate::head::{Head, all_bytes};
use crate::words::Probe;
use std::alloc::{AllocError, Global};
use std::marker::Model;

/// The number of a table and the bytes of a key, where they lie.
#[derive(Drop)]
pub enum Key {
    /// In the value itself: so many of these, with zeros behind them.
    Near(u8, u8, [u8; 32]),
    /// The bytes of a longer key in memory of their own.
    Far(u8, Vec<u8>),
}

/// The place of a row: the number of its table, and its key. A key of at most 32 bytes lies in the value itself.
#[derive(Drop)]
pub struct Place {
    bytes: Key,
}

impl Model for Place {
    ghost use Rattle.std.specs.Prelude.{ℕ, List};
    ghost use Rattle.bdb_memory.specs.Places.{place_in, IsPadded};

    ghost Value = { List ℕ };

    ghost view = { λ p. place_in p.bytes };

    ghost invariant = { λ p. IsPadded p.bytes };
}

impl Place {
    /// The place of a key in a table.
    pub fn of(alloc: Global, tab: u8, key: &[u8]) -> Result<Self, AllocError>
        ensures { IfOk result (λ place. place ≡ tab ∷ key.now) }
    {
        let probe = Probe::of(tab, key);
        if probe.is_long() {
            return Place::far(alloc, tab, key);
        }
        Ok(Place::near(&probe))
    }

    /// The place that is looked for, where its key has at most 32 bytes. It takes no memory.
    #[inline(always)]
    pub fn near(probe: &Probe<'_>) -> Self
        requires { length probe.now ≤ 33 }
        ensures { result ≡ probe.now }
    {
        let (head, _) = probe.parts();
        Place {
            bytes: Key::Near(head.tab, head.count, all_bytes(&head)),
        }
    }

    /// The place of a key that lies in memory of its own.
    pub fn far(alloc: Global, tab: u8, key: &[u8]) -> Result<Self, AllocError>
        ensures { IfOk result (λ place. place ≡ tab ∷ key.now) }
    {
        let copy = Vec::from_slice(alloc, key)?;
        Ok(Place {
            bytes: Key::Far(tab, copy),
        })
    }

    /// The number of the table, and the key.
    pub fn parts(&self) -> (u8, &[u8])
        ensures { self.now ≡ result.0 ∷ result.1.now }
    {
        match &self.bytes {
            Key::Near(tab, count, bytes) => (*tab, &bytes[..usize::from(*count)]),
            Key::Far(tab, key) => (*tab, key.as_slice()),
        }
    }

    /// The place, to be looked for.
    pub fn probe(&self) -> Probe<'_>
        ensures { result ≡ self.now }
    {
        match &self.bytes {
            Key::Near(tab, count, bytes) => {
                Probe::from_parts(Head::of_padded(*tab, *count, bytes), &[])
            }
            Key::Far(tab, key) => Probe::of(*tab, key.as_slice()),
        }
    }
}
