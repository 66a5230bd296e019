use super::*;
use std::test::Fail;

#[test]
fn operators_give_the_values_and_faults_of_the_standard(rt: HostRuntime) {
    let overflow = Err(FaultCause::Overflow);
    let by_zero = Err(FaultCause::DivideByZero);
    assert_eq!(rt; add_int(i32::MAX, 1), overflow);
    assert_eq!(rt; sub_int(i32::MIN, 1), overflow);
    assert_eq!(rt; mul_int(65536, 65536), overflow);
    assert_eq!(rt; neg_int(i32::MIN), overflow);
    assert_eq!(rt; div_int(i32::MIN, -1), overflow);
    assert_eq!(rt; rem_int(i32::MIN, -1), overflow);
    assert_eq!(rt; rem_int(5, 0), by_zero);
    assert_eq!(rt; div_unsigned(5, 0), Err(FaultCause::DivideByZero));
    assert_eq!(rt; rem_unsigned(5, 0), Err(FaultCause::DivideByZero));
    assert_eq!(rt; div_int(-7, 2), Ok(-3));
    assert_eq!(rt; rem_int(-7, 2), Ok(-1));
    assert_eq!(rt; shr_int(-7, 1), Ok(-4));
    assert_eq!(rt; shl_int(1, 31), Ok(i32::MIN));
    assert_eq!(rt; shl_int(1, 32), Err(FaultCause::Shift));
    assert_eq!(rt; shl_unsigned(3, 31), Ok(0x8000_0000));
    assert_eq!(rt; shr_unsigned(0x8000_0000, 31), Ok(1));
    assert_eq!(rt; add_unsigned(u32::MAX, 1), 0);
    assert_eq!(rt; sub_unsigned(0, 1), u32::MAX);
    assert_eq!(rt; mul_unsigned(65536, 65537), 65536);
    assert_eq!(rt;
        apply_binary(BinaryOp::Less, Ctype::Int, u32::MAX, 0),
        Ok(1)
    );
    assert_eq!(rt;
        apply_binary(BinaryOp::Less, Ctype::Unsigned, u32::MAX, 0),
        Ok(0)
    );
    assert_eq!(rt; apply_unary(UnaryOp::Flip, Ctype::Int, 0), Ok(u32::MAX));
    assert_eq!(rt;
        apply_unary(UnaryOp::Minus, Ctype::Unsigned, 1),
        Ok(u32::MAX)
    );
}

#[test]
fn lists_grow_and_bytes_are_copied(rt: HostRuntime) -> Result<(), Fail> {
    let mut bytes = Bytes::from_vec(vec![in rt.alloc(); 7; 1]?);
    bytes.push(rt.alloc(), 9)?;
    let copy = bytes.copy(rt.alloc())?;
    assert_eq!(rt; copy.as_slice(), [7, 9].as_slice());
    let mut list = List::from_vec(vec![in rt.alloc(); 7_u32; 1]?);
    list.push(rt.alloc(), 9)?;
    assert_eq!(rt; list.as_slice(), [7, 9].as_slice());
    Ok(())
}

#[test]
fn a_set_has_the_channels_of_its_bits(rt: HostRuntime) {
    for (set, chan, want) in [
        (1, 0, true),
        (1, 1, false),
        (0x8000_0000, 31, true),
        (u32::MAX, 32, false),
    ] {
        assert_eq!(rt; has_channel(set, chan), want, "channel {chan} of {set}");
    }
}
