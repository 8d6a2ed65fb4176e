use byte_layer::number::{read, write};

// Texts, and the numbers in them, one behind the other up to the text's end: unsigned ones of two and four bytes, and
// signed ones of four and eight.
const NUMBERS: [(&[u8; 18], (u16, u32, i32, i64)); 5] = [
    (&[0; 18], (0, 0, 0, 0)),
    (&[0xFF; 18], (u16::MAX, u32::MAX, -1, -1)),
    (
        b"\x80\x00\x80\x00\x00\x00\x80\x00\x00\x00\x80\x00\x00\x00\x00\x00\x00\x00",
        (32_768, 2_147_483_648, i32::MIN, i64::MIN),
    ),
    (
        b"\x7F\xFF\x7F\xFF\xFF\xFF\x7F\xFF\xFF\xFF\x7F\xFF\xFF\xFF\xFF\xFF\xFF\xFF",
        (32_767, 2_147_483_647, i32::MAX, i64::MAX),
    ),
    (
        b"\x01\x02\x03\x04\x05\x06\x07\x08\x09\x0A\x0B\x0C\x0D\x0E\x0F\x10\x11\x12",
        (0x0102, 0x0304_0506, 0x0708_090A, 0x0B0C_0D0E_0F10_1112),
    ),
];

fn read_all(text: &[u8; 18]) -> (u16, u32, i32, i64) {
    (read(text, 0), read(text, 2), read(text, 6), read(text, 10))
}

fn write_all(numbers: (u16, u32, i32, i64)) -> [u8; 18] {
    let (a, b, c, d) = numbers;
    let mut text = [0x55; 18];
    write(&mut text, 0, a);
    write(&mut text, 2, b);
    write(&mut text, 6, c);
    write(&mut text, 10, d);
    text
}

// Each number is read at its place, and written there gives its bytes again.
#[test]
fn numbers_at_their_extremes(rt: HostRuntime) {
    for (text, numbers) in NUMBERS {
        assert_eq!(rt; read_all(text), numbers);
        assert_eq!(rt; write_all(numbers), *text);
    }
}
