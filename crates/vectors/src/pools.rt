// Buffers filled from the pools of bytes, opmasks and map entries, which stand one behind the other. A buffer gets the
// elements of its pool from a start on, and where the pool ends, from its front.
ghost use Rattle.std.specs.Prelude.{◌≡◌};
ghost use Rattle.vectors.specs.Pools.{bytes_from, masks_from, entries_from, old_from, map_room, masks_room};

use crate::number::number_at;
use std::array;

const BYTES: usize = 65536;

const MASKS: usize = 256;

const ENTRIES: usize = 65536;

const MASKS_AT: usize = BYTES;

const ENTRIES_AT: usize = MASKS_AT + 8 * MASKS;

pub const SIZE: usize = ENTRIES_AT + 2 * ENTRIES;

// Elements of a register file or of a map, with those around it.
pub const ROOM: usize = 2560;

pub const TEXT_ROOM: usize = 28160;

pub const MASKS_ROOM: usize = 24;

pub const MEMORY_ROOM: usize = 256;

// The three pools.
#[derive(Drop)]
pub struct Pools {
    pub all: [u8; SIZE],
}

impl Pools {
    pub(crate) fn bytes<const N: usize>(&self, start: usize) -> [u8; N]
        ensures { result ≡ bytes_from self.now.all start N }
    {
        array::from_fn(|i| self.all[start.wrapping_add(i) % BYTES])
    }

    // Like `entries` and yet apart, since each is one expression, of another type, place and size.
    pub(crate) fn masks(&self, start: usize) -> [u64; MASKS_ROOM]
        ensures { result ≡ masks_from self.now.all start masks_room }
    {
        array::from_fn(|i| {
            let mask = start.wrapping_add(i) % MASKS;
            number_at::<8>(&self.all, MASKS_AT + 8 * mask) as u64
        })
    }

    pub(crate) fn entries(&self, start: usize) -> [u16; ROOM]
        ensures { result ≡ entries_from self.now.all start map_room }
    {
        array::from_fn(|i| {
            let entry = start.wrapping_add(i) % ENTRIES;
            number_at::<2>(&self.all, ENTRIES_AT + 2 * entry) as u16
        })
    }
}

// What a map holds before it is written: numbers that differ from place to place, most of them over 2,048.
pub(crate) fn old_entries(start: usize) -> [u16; ROOM]
    ensures { result ≡ old_from start map_room }
{
    array::from_fn(|i| (start.wrapping_add(40503 * i) % ENTRIES) as u16)
}
