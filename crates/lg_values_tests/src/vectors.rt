//! Vectors with more rows than there may be, and words that are compared with a value.

use lg_value::{Bit, Word};
use lg_vectors::{Cared, MOST_ROWS, VectorFault, passes, read_vector};
use std::alloc::Global;
use std::test::Fail;

// The first line outside the form, 0 where there is none, and nothing where the text is not read for another reason.
fn outside(alloc: Global, bytes: &[u8]) -> Option<u32> {
    match read_vector(alloc, bytes) {
        Ok(_) => Some(0),
        Err(VectorFault::NotVector { line }) => Some(line),
        Err(_) => None,
    }
}

#[test]
fn rows_past_the_most_are_judged(rt: HostRuntime) -> Result<(), Fail> {
    let mut text = [b'A', b'\n'].to_vec(rt.alloc())?;
    for _ in 0..MOST_ROWS {
        text.push(b'1')?;
        text.push(b'\n')?;
    }
    assert!(rt; matches!(read_vector(rt.alloc(), &text), Ok(_)));
    text.push(b'0')?;
    assert!(rt;
        matches!(
            read_vector(rt.alloc(), &text),
            Err(VectorFault::TooManyRows)
        )
    );
    text.push(b'\n')?;
    text.push(b'2')?;
    assert_eq!(rt; outside(rt.alloc(), &text), Some(65_539));
    Ok(())
}

#[test]
fn a_value_whose_bits_are_all_cared_for(rt: HostRuntime) {
    let ones = Word::fill(4, Bit::One);
    let eleven = Cared::new(&Word::from_number(4, 11), &ones);
    assert!(rt; passes(&Word::from_number(4, 11), &eleven));
    assert!(rt; !passes(&Word::from_number(4, 8), &eleven));
}
