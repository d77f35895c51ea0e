//! Why a layer has no cell: a fault of its own, or that of a part, carried whole on its side.
ghost use Rattle.std.specs.Prelude.{◌≡◌, Some};
ghost use Rattle.layers.specs.Faults.{keymap_root, keymap_text, layer_text, pair_root, pair_text};
ghost use Rattle.layers.specs.Layers.{own_fault};
ghost use Rattle.layers.specs.declared.faults.KeymapFault.TheVariants as keymap;
ghost use Rattle.layers.specs.declared.faults.PairFault.TheVariants as pair;

use machine::{Cause, Fault, OwnFault};
use std::fmt;

/// A fault of the layer itself: cause 1, 2 or 6.
#[derive(Clone, Copy, PartialEq, Eq, Debug)]
pub struct LayerFault {
    pub cause: Cause,
    pub state: u16,
    pub input: u16,
}

/// A fault of a layer of two parts. The first part of a train is its lower one.
#[derive(Clone, Copy, PartialEq, Eq, Debug, Drop)]
pub enum PairFault<F, G> {
    Own(LayerFault),
    First(F),
    Second(G),
}

/// A fault of a key map.
#[derive(Clone, Copy, PartialEq, Eq, Debug, Drop)]
pub enum KeymapFault<F> {
    Own(LayerFault),
    Part(F),
}

impl Fault for LayerFault {
    ghost root = { λ f. f.cause };

    fn cause(&self) -> Cause {
        self.cause
    }
}

impl OwnFault for LayerFault {
    ghost own = { own_fault };

    fn own(cause: Cause, state: u16, input: u16) -> LayerFault {
        LayerFault {
            cause,
            state,
            input,
        }
    }
}

impl<F: Fault, G: Fault> Fault for PairFault<F, G> {
    ghost root = { pair_root F.Fault.root G.Fault.root };

    fn cause(&self) -> Cause {
        match self {
            PairFault::Own(own) => own.cause,
            PairFault::First(fault) => fault.cause(),
            PairFault::Second(fault) => fault.cause(),
        }
    }
}

impl<F: Fault> Fault for KeymapFault<F> {
    ghost root = { keymap_root F.Fault.root };

    fn cause(&self) -> Cause {
        match self {
            KeymapFault::Own(own) => own.cause,
            KeymapFault::Part(fault) => fault.cause(),
        }
    }
}

impl fmt::Display for LayerFault {
    ghost output = { λ f. Some (layer_text f) };

    fn fmt<W: fmt::Write>(&self, f: &mut fmt::Formatter<W>) -> fmt::Result {
        let LayerFault {
            cause,
            state,
            input,
        } = *self;
        write!(f, "state {state} input {input}: {cause}")
    }
}

impl<F: fmt::Display, G: fmt::Display> fmt::Display for PairFault<F, G> {
    ghost output = { pair_text F.Display.output G.Display.output };

    fn fmt<W: fmt::Write>(&self, f: &mut fmt::Formatter<W>) -> fmt::Result {
        match self {
            PairFault::Own(own) => write!(f, "{own}"),
            PairFault::First(fault) => write!(f, "first: {fault}"),
            PairFault::Second(fault) => write!(f, "second: {fault}"),
        }
    }
}

impl<F: fmt::Display> fmt::Display for KeymapFault<F> {
    ghost output = { keymap_text F.Display.output };

    fn fmt<W: fmt::Write>(&self, f: &mut fmt::Formatter<W>) -> fmt::Result {
        match self {
            KeymapFault::Own(own) => write!(f, "{own}"),
            KeymapFault::Part(fault) => write!(f, "part: {fault}"),
        }
    }
}

/// The layer's own fault goes up by `?`.
impl<F, G> From<LayerFault> for PairFault<F, G> {
    ghost from_gives = { λ own r. r ≡ pair.Own own };

    fn from(own: LayerFault) -> PairFault<F, G> {
        PairFault::Own(own)
    }
}

impl<F> From<LayerFault> for KeymapFault<F> {
    ghost from_gives = { λ own r. r ≡ keymap.Own own };

    fn from(own: LayerFault) -> KeymapFault<F> {
        KeymapFault::Own(own)
    }
}

// stays: `map_err(PairFault::First)` is not covered by the check: its result names a type, the other part's fault, that its argument does not
/// The fault of the first or lower part, which goes up whole, on its side, by `?`.
pub(crate) struct InFirst<F>(pub F);

/// The same of the second or upper part.
pub(crate) struct InSecond<G>(pub G);

impl<F, G> From<InFirst<F>> for PairFault<F, G> {
    ghost from_gives = { λ side r. r ≡ pair.First side.0 };

    fn from(InFirst(fault): InFirst<F>) -> PairFault<F, G> {
        PairFault::First(fault)
    }
}

impl<F, G> From<InSecond<G>> for PairFault<F, G> {
    ghost from_gives = { λ side r. r ≡ pair.Second side.0 };

    fn from(InSecond(fault): InSecond<G>) -> PairFault<F, G> {
        PairFault::Second(fault)
    }
}
