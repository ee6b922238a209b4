// Symbols from outside, their faults and their texts.
use hall_symbol::{HallFault, generators, read_symbol};
use std::test::Fail;

/// The fault of a text, or `None` where it spells a symbol.
fn fault_of(text: &[u8]) -> Option<HallFault> {
    match read_symbol(text) {
        Ok(_) => None,
        Err(fault) => Some(fault),
    }
}

#[test]
fn each_fault_is_told(rt: HostRuntime) {
    for (text, fault) in [
        (b"".as_slice(), HallFault::Empty),
        (b"   ", HallFault::Empty),
        (b"Q 2", HallFault::BadLattice),
        (b"P(0 0 1)", HallFault::BadLattice),
        (b"P\t2", HallFault::BadLattice),
        (b"P", HallFault::BadToken(1)),
        (b"P (0 0 1)", HallFault::BadToken(1)),
        (b"P 5", HallFault::BadToken(1)),
        (b"P 4 2 3 2!a", HallFault::BadToken(4)),
        (b"P 4 4", HallFault::NoAxis(2)),
        (b"P 1 2", HallFault::NoAxis(2)),
        (b"P 11", HallFault::BadScrew(1)),
        (b"P 22", HallFault::BadScrew(1)),
        (b"P 3 21", HallFault::BadScrew(2)),
        (b"P 1 1 1 1 1 1", HallFault::TooManyTokens),
        (b"P 2 (0 0)", HallFault::BadShift),
        (b"P 2 (0 0 1) 2", HallFault::BadShift),
    ] {
        assert_eq!(rt; fault_of(text), Some(fault));
    }
}

#[test]
fn symbols_have_these_operations(rt: HostRuntime) -> Result<(), Fail> {
    for (text, count) in [
        (b"P 1".as_slice(), 1),
        (b"-P 4 2 3", 4),
        (b"F 4d 2 3", 6),
        (b"-R 3*u 4z 1!", 6),
        (b"  -P  2  ( -1  02 3 )  ", 2),
    ] {
        let Ok(symbol) = read_symbol(text) else {
            assert!(rt; false, "refused");
            return Ok(());
        };
        assert_eq!(rt; generators(rt.alloc(), &symbol)?.len(), count);
    }
    Ok(())
}

#[test]
fn faults_have_these_texts(rt: HostRuntime) -> Result<(), Fail> {
    for (fault, text) in [
        (HallFault::Empty, "symbol is empty"),
        (HallFault::BadLattice, "unknown lattice"),
        (HallFault::BadToken(1), "token 1 has no known form"),
        (HallFault::NoAxis(2), "token 2 needs an axis"),
        (HallFault::BadScrew(5), "token 5 has a wrong screw digit"),
        (HallFault::TooManyTokens, "more than five tokens"),
        (HallFault::BadShift, "shift has no known form"),
    ] {
        assert_eq!(rt; format!(in rt.alloc(); "{fault}")?.as_str(), text);
    }
    Ok(())
}
