// Symbols from outside and their groups, and tables of them.
use hall_text::{
    ExpandError, HallFault, MOST_ROWS, RowFault, TableError, expand, read_symbol, read_table,
};
use io_edge::Bytes;
use std::test::Fail;

#[test]
fn groups_have_their_orders(rt: HostRuntime) -> Result<(), Fail> {
    for (text, order) in [
        (b"P 1".as_slice(), 1),
        (b"P 1c!", 2),
        (b"P 31 2c (0 0 1)", 6),
        (b"-P 4n! 2n", 16),
        (b"-P 4 2 3", 48),
        (b"F 4d 2 3", 96),
        (b"-F 4 2 3", 192),
        (b"-P 4 2 3 1!", 96),
        (b"-R 3*u 4z 1!", 165_888),
    ] {
        let Ok(symbol) = read_symbol(text) else {
            assert!(rt; false, "refused");
            return Ok(());
        };
        let Ok(list) = expand(rt.alloc(), &symbol) else {
            assert!(rt; false, "not expanded");
            return Ok(());
        };
        assert_eq!(rt; (list.n(), list.count()), (12, order));
    }
    Ok(())
}

#[test]
fn a_49th_matrix_is_told(rt: HostRuntime) -> Result<(), Fail> {
    for text in [b"P 6 3*".as_slice(), b"P 4z 6x"] {
        let Ok(symbol) = read_symbol(text) else {
            assert!(rt; false, "refused");
            return Ok(());
        };
        let Err(error) = expand(rt.alloc(), &symbol) else {
            assert!(rt; false, "expanded");
            return Ok(());
        };
        assert_eq!(rt; error, ExpandError::TooManyMatrices);
    }
    Ok(())
}

#[test]
fn tables_are_read(rt: HostRuntime) -> Result<(), Fail> {
    for (text, count) in [
        (b"".as_slice(), 0),
        (b"# none\n\n \t\n", 0),
        (b"P4/mmm -P 4 2\r\nP4/mm'm'\t-P\t4 2!\n", 2),
        (b"  a  P 1", 1),
    ] {
        let bytes = Bytes::copy(rt.alloc(), text)?;
        let Ok(table) = read_table(rt.alloc(), &bytes) else {
            assert!(rt; false, "refused");
            return Ok(());
        };
        assert_eq!(rt; table.count(), count);
    }
    Ok(())
}

#[test]
fn each_fault_of_a_row_is_told(rt: HostRuntime) -> Result<(), Fail> {
    for (text, row, fault) in [
        (
            b"a -P 4 2 3\nb P 4z 6x\n".as_slice(),
            2,
            RowFault::TooManyMatrices,
        ),
        (b"a P 2 (0 0)\n", 1, RowFault::Symbol(HallFault::BadShift)),
        (b"x\n", 1, RowFault::BadRow),
        (
            b"# a P 9\nnnnnnnnnnnnnnnnnnnnnnnnnnnnnnnnnn P 1\n",
            1,
            RowFault::BadRow,
        ),
        (
            b"nnnnnnnnnnnnnnnnnnnnnnnnnnnnnnnn P 5\n",
            1,
            RowFault::Symbol(HallFault::BadToken(1)),
        ),
        (b"a P 1\xff\n", 1, RowFault::BadRow),
    ] {
        let bytes = Bytes::copy(rt.alloc(), text)?;
        let Err(error) = read_table(rt.alloc(), &bytes) else {
            assert!(rt; false, "read");
            return Ok(());
        };
        assert_eq!(rt; error, TableError::Refused(row, fault));
    }
    Ok(())
}

#[test]
fn rows_have_their_names_and_symbols(rt: HostRuntime) -> Result<(), Fail> {
    let bytes = Bytes::copy(
        rt.alloc(),
        b"# two\nI4/mmm\t-I 4 2\n\n P4_2/mnm  -P 4n 2n \n",
    )?;
    let Ok(table) = read_table(rt.alloc(), &bytes) else {
        assert!(rt; false, "refused");
        return Ok(());
    };
    assert_eq!(rt; table.count(), 2);
    if table.count() == 2 {
        assert_eq!(rt; table.name(0).as_slice(), b"I4/mmm".as_slice());
        assert_eq!(rt; table.name(1).as_slice(), b"P4_2/mnm".as_slice());
        for (i, order) in [(0, 32), (1, 16)] {
            let Ok(list) = expand(rt.alloc(), table.symbol(i)) else {
                assert!(rt; false, "not expanded");
                return Ok(());
            };
            assert_eq!(rt; list.count(), order);
        }
    }
    Ok(())
}

#[test]
fn the_row_past_the_last_is_told(rt: HostRuntime) -> Result<(), Fail> {
    let mut text = Bytes::new(rt.alloc());
    for _ in 0..MOST_ROWS {
        text.append(b"a P 1\n")?;
    }
    let Ok(table) = read_table(rt.alloc(), &text) else {
        assert!(rt; false, "refused");
        return Ok(());
    };
    assert_eq!(rt; table.count(), 4_000);
    text.append(b"x\n")?;
    let Err(error) = read_table(rt.alloc(), &text) else {
        assert!(rt; false, "read");
        return Ok(());
    };
    assert_eq!(rt; error, TableError::Refused(4_001, RowFault::TooManyRows));
    Ok(())
}

#[test]
fn faults_have_these_texts(rt: HostRuntime) -> Result<(), Fail> {
    for (fault, text) in [
        (
            RowFault::Symbol(HallFault::NoAxis(2)),
            "token 2 needs an axis",
        ),
        (RowFault::TooManyMatrices, "more than 48 matrices"),
        (RowFault::TooManyRows, "more than 4000 rows"),
        (RowFault::BadRow, "row has no known form"),
    ] {
        assert_eq!(rt; format!(in rt.alloc(); "{fault}")?.as_str(), text);
    }
    Ok(())
}
