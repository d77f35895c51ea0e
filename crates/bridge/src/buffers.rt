//! Buffers that are filled by a rule before a call.
ghost use Rattle.std.specs.Prelude.{◌≡◌, ℕ, map, IfOk};
ghost use Rattle.std.specs.List.{range_with_len};
ghost use Rattle.bridge.specs.Items.{byte_at, number_at, command_at, move_at};

use machine::{Command, WheelMove};
use std::alloc::{AllocError, Global};
use std::fmt;

/// What a buffer holds: made from its place before a call, printed after it.
pub(crate) trait Item: Copy + fmt::Display {
    ghost at: { ℕ → Self };

    fn made_at(place: u16) -> Self
        ensures { result ≡ at place };
}

impl Item for u8 {
    ghost at = { byte_at };

    fn made_at(place: u16) -> u8 {
        255 - (place % 256) as u8
    }
}

impl Item for u16 {
    ghost at = { number_at };

    fn made_at(place: u16) -> u16 {
        65535 - place
    }
}

impl Item for Command {
    ghost at = { command_at };

    fn made_at(place: u16) -> Command {
        Command {
            number: 65535 - place,
        }
    }
}

impl Item for WheelMove {
    ghost at = { move_at };

    fn made_at(place: u16) -> WheelMove {
        let offset = (place % 16384) as i16;
        WheelMove {
            lift: offset,
            gamma: -1 - offset,
            gain: 7,
        }
    }
}

/// A buffer of so many places.
pub(crate) fn buffer<T: Item>(heap: Global, room: u16) -> Result<Vec<T>, AllocError>
    ensures { IfOk result (λ v. v.items ≡ map T.Item.at (range_with_len 0 room)) }
{
    (0..room).map(|place| T::made_at(place)).collect(heap)
}
