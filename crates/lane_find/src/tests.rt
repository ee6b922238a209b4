// Values from outside, worked by hand: lists on both sides of whole chunks.

use super::*;
use std::test::Fail;

/// The longest list that is tried.
const LONGEST: usize = 40;

#[test]
fn a_key_at_the_last_index_is_found(rt: HostRuntime) -> Result<(), Fail> {
    let mut list = Vec::new(rt.alloc());
    for length in 1..=LONGEST {
        list.push(7)?;
        let entries = list.as_slice();
        assert_eq!(rt;
            first_at(entries, entries, entries, 7, 7, 7),
            Some(length - 1),
            "of {length}"
        );
        let _ = list.pop();
        list.push(5)?;
    }
    Ok(())
}

#[test]
fn an_empty_list_has_no_key(rt: HostRuntime) {
    assert_eq!(rt; first_at(&[], &[], &[], 7, 7, 7), None);
}

#[test]
fn a_shift_by_the_greatest_residue_goes_one_back(rt: HostRuntime) -> Result<(), Fail> {
    for n in 1..=40u32 {
        let mut list = Vec::new(rt.alloc());
        let mut back = Vec::new(rt.alloc());
        for v in 0..n {
            list.push(v)?;
            back.push(if v == 0 { n - 1 } else { v - 1 })?;
        }
        shift_mod(list.as_mut_slice(), n - 1, n);
        assert_eq!(rt; list.as_slice(), back.as_slice(), "modulo {n}");
    }
    Ok(())
}
