// Each question is answered no at the lowest record that fails it, and before every later question.
use crate::build::{accepts, bytes, plain, refused, refuses, with_byte, with_low};
use layout::{encode_leg, encode_place};
use std::test::Fail;

const ABOVE: u32 = 268_365_826;

#[test]
fn length(rt: HostRuntime) -> Result<(), Fail> {
    let heap = rt.alloc();
    refused(&rt, Vec::new(heap), 2, 0)?;
    let mut short = bytes(heap, &[plain(0)])?;
    short.truncate(15);
    refused(&rt, short, 1, 0)?;
    let mut broken = bytes(heap, &[plain(0), [7; 16], plain(0)])?;
    broken.truncate(33);
    refused(&rt, broken, 1, 2)
}

#[test]
fn first_record(rt: HostRuntime) -> Result<(), Fail> {
    let leg = encode_leg(0, 0);
    refuses(&rt, rt.alloc(), 2, &[(&[leg], 0), (&[leg, [7; 16]], 0)])
}

#[test]
fn tags(rt: HostRuntime) -> Result<(), Fail> {
    let leg = encode_leg(0, 0);
    let flagged = with_byte(plain(0), 1, 2);
    refuses(
        &rt,
        rt.alloc(),
        3,
        &[
            (&[plain(0), [7; 16], [7; 16]], 1),
            (&[plain(0), leg, plain(0), plain(0)], 2),
            (&[plain(0), leg, leg, [84; 16]], 3),
            (&[flagged, leg, [7; 16]], 2),
        ],
    )
}

#[test]
fn fixed_bytes(rt: HostRuntime) -> Result<(), Fail> {
    let leg = encode_leg(0, 0);
    let flagged = with_byte(plain(0), 1, 2);
    let eighth = with_byte(leg, 8, 1);
    refuses(
        &rt,
        rt.alloc(),
        5,
        &[
            (&[plain(0), flagged, flagged], 1),
            (&[plain(0), with_byte(leg, 1, 1)], 1),
            (&[plain(0), leg, eighth, eighth], 2),
            (&[plain(0), with_byte(leg, 15, 255)], 1),
            (&[plain(1), with_byte(leg, 11, 1)], 1),
        ],
    )
}

#[test]
fn first_legs(rt: HostRuntime) -> Result<(), Fail> {
    let heap = rt.alloc();
    let leg = encode_leg(0, 0);
    refuses(
        &rt,
        heap,
        6,
        &[
            (&[plain(1), leg], 0),
            (&[plain(0), plain(2), plain(1), plain(0), leg, leg], 2),
            (&[plain(0), plain(2), plain(3), leg], 1),
            (&[plain(0), plain(2), encode_leg(9, 0)], 1),
        ],
    )?;
    accepts(heap, &[plain(0), plain(1), plain(1), encode_leg(2, 0)])
}

#[test]
fn targets(rt: HostRuntime) -> Result<(), Fail> {
    let one = encode_leg(1, 0);
    let two = encode_leg(2, 0);
    let three = encode_leg(3, 0);
    refuses(
        &rt,
        rt.alloc(),
        7,
        &[
            (&[plain(0), plain(1), one, two, three], 3),
            (&[with_low(0, ABOVE), one], 1),
        ],
    )
}

#[test]
fn estimates(rt: HostRuntime) -> Result<(), Fail> {
    let heap = rt.alloc();
    let low = with_low(0, ABOVE);
    let hope = encode_place(false, 0, 0, ABOVE, 0);
    let steps = encode_place(false, 0, 0, 0, ABOVE);
    refuses(
        &rt,
        heap,
        8,
        &[
            (&[plain(0), low, low], 1),
            (&[plain(0), hope], 1),
            (&[plain(0), plain(0), steps], 2),
            (&[encode_place(true, 0, 1, 0, 0), steps], 1),
        ],
    )?;
    accepts(
        heap,
        &[encode_place(false, 0, ABOVE - 1, ABOVE - 1, ABOVE - 1)],
    )
}

#[test]
fn goals_have_low_zero(rt: HostRuntime) -> Result<(), Fail> {
    let high = encode_place(true, 0, 1, 0, 0);
    let later = encode_place(true, 1, 1, 0, 0);
    refuses(
        &rt,
        rt.alloc(),
        9,
        &[
            (&[high, high], 0),
            (&[with_low(0, 5), later, encode_leg(1, 1)], 1),
        ],
    )
}

#[test]
fn low_falls_by_the_cost(rt: HostRuntime) -> Result<(), Fail> {
    let heap = rt.alloc();
    let five = with_low(0, 5);
    let nine = with_low(1, 9);
    let level = encode_leg(1, 0);
    refuses(
        &rt,
        heap,
        9,
        &[
            (
                &[
                    five,
                    plain(3),
                    encode_leg(1, 5),
                    encode_leg(1, 4),
                    encode_leg(1, 3),
                ],
                3,
            ),
            (&[five, nine, level, encode_leg(0, 3)], 3),
        ],
    )?;
    accepts(heap, &[five, nine, level, encode_leg(0, 4)])
}
