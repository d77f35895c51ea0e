//! Output kinds: what a cell can put out, and when two outputs are alike.
ghost use Rattle.std.specs.Prelude.{◌≡◌, List, [], ◌∷◌, ℤ, pos, Decides, Some};
ghost use Rattle.machine.specs.Outputs.{command_text, wheel_text};
ghost use Rattle.machine.specs.Wheels.{hundredths, Nearest, Carried, wheel_key};

use std::fmt;

/// A kind gives each value a key; two values are alike exactly when their keys are equal.
pub trait Output: Copy {
    ghost key: { Self → List ℤ };

    fn alike(&self, other: &Self) -> bool
        ensures { Decides result (key self.now ≡ key other.now) };
}

/// A command to the renderer, known by its number.
#[derive(Clone, Copy, PartialEq, Eq, Debug, Default)]
pub struct Command {
    pub number: u16,
}

impl Output for Command {
    ghost key = { λ c. pos c.number ∷ [] };

    fn alike(&self, other: &Command) -> bool {
        self.number == other.number
    }
}

impl fmt::Display for Command {
    ghost output = { λ c. Some (command_text c) };

    fn fmt<W: fmt::Write>(&self, f: &mut fmt::Formatter<W>) -> fmt::Result {
        let Command { number } = *self;
        write!(f, "{number}")
    }
}

/// A move of the three grading wheels, in thousandths.
#[derive(Clone, Copy, PartialEq, Eq, Debug)]
pub struct WheelMove {
    pub lift: i16,
    pub gamma: i16,
    pub gain: i16,
}

impl Output for WheelMove {
    ghost key = { λ w. wheel_key w.lift w.gamma w.gain };

    fn alike(&self, other: &WheelMove) -> bool {
        same_step(self.lift, other.lift)
            && same_step(self.gamma, other.gamma)
            && same_step(self.gain, other.gain)
    }
}

impl fmt::Display for WheelMove {
    ghost output = { λ w. Some (wheel_text w) };

    fn fmt<W: fmt::Write>(&self, f: &mut fmt::Formatter<W>) -> fmt::Result {
        let WheelMove { lift, gamma, gain } = *self;
        write!(f, "{lift}/{gamma}/{gain}")
    }
}

/// An offset in thousandths as the renderer shows it: the nearest hundredth, and a half goes away from zero.
pub fn to_hundredths(offset: i16) -> i16
    ensures value { result ≡ hundredths offset }
    ensures nearest { Nearest offset result }
{
    offset / 10 + carry(offset % 10)
}

/// What a remainder by ten adds to the quotient.
fn carry(rest: i16) -> i16
    ensures { Carried rest result }
{
    if rest >= 5 {
        1
    } else if rest <= -5 {
        -1
    } else {
        0
    }
}

/// Whether the renderer shows two offsets as the same.
fn same_step(a: i16, b: i16) -> bool
    ensures { Decides result (hundredths a ≡ hundredths b) }
{
    to_hundredths(a) == to_hundredths(b)
}
