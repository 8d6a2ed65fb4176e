use settle::payment::Payment;
use settle::statement::Totals;

// Amounts in grains, and the cents and grains that they come to: 40 grains are a cent, and cents are cut off toward zero.
const PAYMENTS: [(i64, (i64, i32)); 9] = [
    (0, (0, 0)),
    (39, (0, 39)),
    (-39, (0, -39)),
    (40, (1, 0)),
    (-40, (-1, 0)),
    (81, (2, 1)),
    (-81, (-2, -1)),
    (10_000_000_000_000, (250_000_000_000, 0)),
    (i64::MIN, (-230_584_300_921_369_395, -8)),
];

#[test]
fn cents_toward_zero(rt: HostRuntime) {
    for (amount, (cents, rest)) in PAYMENTS {
        assert_eq!(rt; Payment::of(amount), Payment { cents, rest });
    }
}

// A line and a closing line, and the bytes round them untouched.
#[test]
fn the_lines_of_a_statement(rt: HostRuntime) {
    let mut text = [0xAA; 32];
    Payment::of(-81).write(&mut text, 1);
    Totals {
        cents: 2,
        rest: -80,
    }
    .write(&mut text, 14);
    assert_eq!(rt;
        text,
        *b"\xAA\x59\xFF\xFF\xFF\xFF\xFF\xFF\xFF\xFE\xFF\xFF\xFF\xFF\x57\x00\x00\x00\x00\x00\x00\x00\x02\xFF\xFF\xFF\xFF\xFF\xFF\xFF\xB0\xAA"
    );
}
