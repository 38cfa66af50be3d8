// The worked examples of the documents, run.
use branch::{read_branch_reply, write_branch_reply};
use dali::search::write_search;
use keys::random_address::RandomAddress;
use keys::range::{Range, split};
use keys::uid::Uid;
use rdm::question::Question;
use refusals::Refusal;
use std::test::Fail;

const FIRST: Uid = Uid {
    manufacturer: 0x7FF3,
    device: 1,
};

const SECOND: Uid = Uid {
    manufacturer: 0x7FF3,
    device: 2,
};

fn reply_of(key: Uid) -> [u8; 24] {
    let mut bytes = [0u8; 24];
    let _ = write_branch_reply(key, &mut bytes);
    bytes
}

// What was read, by its number.
fn read(bytes: &[u8]) -> Result<u64, Refusal> {
    read_branch_reply(bytes).map(Uid::number)
}

#[test]
fn branch_reply_of_the_first_key(rt: HostRuntime) {
    let expected = [
        0xFE, 0xFE, 0xFE, 0xFE, 0xFE, 0xFE, 0xFE, 0xAA, 0xFF, 0x7F, 0xFB, 0xF7, 0xAA, 0x55, 0xAA,
        0x55, 0xAA, 0x55, 0xAB, 0x55, 0xAF, 0x57, 0xEF, 0x7D,
    ];
    assert!(rt; reply_of(FIRST) == expected);
}

// Two replies at once, bit by bit.
fn joined<F: Fn(u8, u8) -> u8>(first: [u8; 24], second: [u8; 24], gate: F) -> [u8; 24]
    requires { F.IsAlwaysCallable gate }
{
    let mut joined = first;
    for (byte, other) in joined.iter_mut().zip(&second) {
        *byte = gate(*byte, *other);
    }
    joined
}

#[test]
fn replies_that_overlap_read_as_neither(rt: HostRuntime) {
    let or = joined(reply_of(FIRST), reply_of(SECOND), |a, b| a | b);
    assert_eq!(rt; read(&or), Ok(0x7FF3_0000_0003));
    let and = joined(reply_of(FIRST), reply_of(SECOND), |a, b| a & b);
    assert_eq!(rt; read(&and), Ok(0x7FF3_0000_0000));
}

const LOWEST: Uid = Uid {
    manufacturer: 0,
    device: 0,
};

const HIGHEST: Uid = Uid {
    manufacturer: 0xFFFF,
    device: 0xFFFF_FFFE,
};

#[test]
fn first_branch_question_of_all_keys(rt: HostRuntime) {
    let mut buf = [0u8; 40];
    let all = Range {
        lo: LOWEST,
        hi: HIGHEST,
    };
    assert_eq!(rt; Question::Branch(all).write(0, &mut buf), Ok(38));
    assert_eq!(rt; buf[36], 0x0E);
    assert_eq!(rt; buf[37], 0x71);
    let none = Range {
        lo: HIGHEST,
        hi: LOWEST,
    };
    assert_eq!(rt;
        Question::Branch(none).write(0, &mut buf),
        Err(Refusal::LowerAboveUpper)
    );
}

#[test]
fn halves_of_all_keys(rt: HostRuntime) -> Result<(), Fail> {
    let all = Range {
        lo: LOWEST,
        hi: HIGHEST,
    };
    let (lower, upper) = split(all).ok_or_else(|| Fail::new("two halves"))?;
    assert_eq!(rt; lower.hi.number(), 0x7FFF_FFFF_FFFF);
    assert_eq!(rt; upper.lo.number(), 0x8000_0000_0000);
    let one = Range {
        lo: LOWEST,
        hi: LOWEST,
    };
    assert!(rt; split(one).is_none());
    Ok(())
}

#[test]
fn search_address_in_three_frames(rt: HostRuntime) -> Result<(), Fail> {
    let key = RandomAddress::from_number(0x12_3456).ok_or_else(|| Fail::new("a random address"))?;
    let mut buf = [0u8; 6];
    assert_eq!(rt; write_search(key, &mut buf), Ok(6));
    assert!(rt; buf == [0xB1, 0x12, 0xB3, 0x34, 0xB5, 0x56]);
    Ok(())
}
