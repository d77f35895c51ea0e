//! Tests of piles of layers over stored forms.
#![tactic(auto)]

#[cfg(test)]
mod orders;

#[cfg(test)]
mod tests {
    use crate::orders::own;
    use forms::Ring;
    use layers::{Beside, Keymap, KeymapFault, PairFault, Train};
    use machine::faults::Fault as _;
    use machine::{Cause, CheckRefusal, Fault, Machine, StoredFault};
    use samples::{cell, fault};
    use std::test::Fail;

    #[test]
    fn rings_fill_the_panel(rt: HostRuntime) -> Result<(), Fail> {
        let both = Beside::new(Ring::open(64)?, Ring::open(64)?);
        assert_eq!(rt; both.states(), 128);
        assert_eq!(rt; both.entry(127, 0), Ok(cell(64, 1)));
        assert!(rt; machine::check(&both).is_ok());
        Ok(())
    }

    #[test]
    fn one_state_too_many(rt: HostRuntime) -> Result<(), Fail> {
        let both = Beside::new(Ring::open(64)?, Ring::open(65)?);
        assert_eq!(rt; both.states(), 0);
        let own = PairFault::Own(own(Cause::Misfit, 0, 0));
        assert_eq!(rt; machine::check(&both), Err(CheckRefusal::Misfit(own)));
        Ok(())
    }

    // key 2 asks for input 3 of a ring, which has three
    fn past() -> StoredFault {
        fault(Cause::Input, 0, 3, 0)
    }

    #[test]
    fn a_key_past_the_inputs(rt: HostRuntime) -> Result<(), Fail> {
        let keys = Keymap::new(Ring::open(3)?, &[0, 0, 3]);
        let hole = CheckRefusal::Hole {
            state: 0,
            input: 2,
            fault: KeymapFault::Part(past()),
        };
        assert_eq!(rt; machine::check(&keys), Err(hole));
        Ok(())
    }

    #[test]
    fn a_ring_feeds_a_ring(rt: HostRuntime) -> Result<(), Fail> {
        let rings = Train::new(Ring::open(3)?, Ring::open(2)?);
        assert_eq!(rt; rings.entry(0, 0), Ok(cell(3, 0)));
        assert_eq!(rt; rings.entry(5, 0), Ok(cell(0, 0)));
        Ok(())
    }

    #[test]
    fn a_fault_comes_up_whole(rt: HostRuntime) -> Result<(), Fail> {
        let keys = Keymap::new(Ring::open(3)?, &[0, 0, 3]);
        let pile = Beside::new(Ring::open(4)?, Train::new(keys, Ring::open(2)?));
        let fault = pile.entry(4, 2).err().ok_or_else(|| Fail::new("a cell"))?;
        assert_eq!(rt; fault.cause(), Cause::Input);
        let carried = PairFault::Second(PairFault::First(KeymapFault::Part(past())));
        assert_eq!(rt; fault, carried);
        Ok(())
    }
}
