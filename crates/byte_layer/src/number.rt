ghost use Rattle.std.specs.Prelude.{◌≡◌, ℕ, ◌+◌, ◌^◌, ◌<◌, ◌≤◌, length, take, drop};
ghost use Rattle.byte_layer.specs.Number.{number, octets, placed, Octets};

// Numbers in a text, the highest octet first.

// Every element of a text is an octet: what the type says, as a fact that a proof can cite.
pub fn are_octets(text: &[u8])
    ensures { Octets text.now }
{
    if text.len() > 0 {
        let _first = text[0];
    }
}

// An `impl` for each type of number stands written out below: an `impl` that a macro writes has no ghost items.
// A number that `N` octets hold. `code` is the unsigned number that stands for it in them, and `of_code` goes back.
pub trait Number<const N: usize>: Copy {
    ghost code: { Self → ℕ };

    ghost of_code: { ℕ → Self };

    fn from_octets(bytes: &[u8; N]) -> Self
        ensures value { result ≡ of_code (number N bytes.now 0) }
        ensures code { code result ≡ number N bytes.now 0 };

    fn to_octets(self) -> [u8; N]
        ensures octets { result ≡ octets N (code self) }
        ensures small { code self < 256 ^ N }
        ensures back { of_code (code self) ≡ self };
}

impl Number<1> for u8 {
    ghost code = { λ n. n };

    ghost of_code = { λ n. n };

    fn from_octets(bytes: &[u8; 1]) -> u8 {
        u8::from_be_bytes(*bytes)
    }

    fn to_octets(self) -> [u8; 1] {
        u8::to_be_bytes(self)
    }
}

impl Number<2> for u16 {
    ghost code = { λ n. n };

    ghost of_code = { λ n. n };

    fn from_octets(bytes: &[u8; 2]) -> u16 {
        u16::from_be_bytes(*bytes)
    }

    fn to_octets(self) -> [u8; 2] {
        u16::to_be_bytes(self)
    }
}

impl Number<4> for u32 {
    ghost code = { λ n. n };

    ghost of_code = { λ n. n };

    fn from_octets(bytes: &[u8; 4]) -> u32 {
        u32::from_be_bytes(*bytes)
    }

    fn to_octets(self) -> [u8; 4] {
        u32::to_be_bytes(self)
    }
}

impl Number<8> for u64 {
    ghost code = { λ n. n };

    ghost of_code = { λ n. n };

    fn from_octets(bytes: &[u8; 8]) -> u64 {
        u64::from_be_bytes(*bytes)
    }

    fn to_octets(self) -> [u8; 8] {
        u64::to_be_bytes(self)
    }
}

impl Number<1> for i8 {
    ghost use Rattle.byte_layer.specs.Number.{signed, twos};

    ghost code = { twos 1 };

    ghost of_code = { signed 1 };

    fn from_octets(bytes: &[u8; 1]) -> i8 {
        i8::from_be_bytes(*bytes)
    }

    fn to_octets(self) -> [u8; 1] {
        i8::to_be_bytes(self)
    }
}

impl Number<2> for i16 {
    ghost use Rattle.byte_layer.specs.Number.{signed, twos};

    ghost code = { twos 2 };

    ghost of_code = { signed 2 };

    fn from_octets(bytes: &[u8; 2]) -> i16 {
        i16::from_be_bytes(*bytes)
    }

    fn to_octets(self) -> [u8; 2] {
        i16::to_be_bytes(self)
    }
}

impl Number<4> for i32 {
    ghost use Rattle.byte_layer.specs.Number.{signed, twos};

    ghost code = { twos 4 };

    ghost of_code = { signed 4 };

    fn from_octets(bytes: &[u8; 4]) -> i32 {
        i32::from_be_bytes(*bytes)
    }

    fn to_octets(self) -> [u8; 4] {
        i32::to_be_bytes(self)
    }
}

impl Number<8> for i64 {
    ghost use Rattle.byte_layer.specs.Number.{signed, twos};

    ghost code = { twos 8 };

    ghost of_code = { signed 8 };

    fn from_octets(bytes: &[u8; 8]) -> i64 {
        i64::from_be_bytes(*bytes)
    }

    fn to_octets(self) -> [u8; 8] {
        i64::to_be_bytes(self)
    }
}

// That a field lies within the text is asked at each call: it is a fact of text, place and width together, not of one value.

// The `N` octets from a place of a text on, where they lie.
fn octets_at<const N: usize>(text: &[u8], at: usize) -> &[u8; N]
    requires { at + N ≤ length text.now }
    ensures { result.now ≡ take N (drop at text.now) }
{
    let Some(bytes) = text[at..at + N].as_array() else {
        return unreachable();
    };
    bytes
}

// The number at a place of a text. A number that was read, written again where it stood, changes nothing.
pub fn read<T: Number<N>, const N: usize>(text: &[u8], at: usize) -> T
    requires { at + N ≤ length text.now }
    ensures value { result ≡ T.of_code (number N text.now at) }
    ensures stood { placed text.now at (octets N (T.code result)) ≡ text.now }
{
    T::from_octets(octets_at(text, at))
}

// Writes a number at a place of a text, where it is read again.
pub fn write<T: Number<N>, const N: usize>(text: &mut [u8], at: usize, value: T)
    requires { at + N ≤ length text.old }
    ensures bytes { text.new ≡ placed text.old at (octets N (T.code value)) }
    ensures reads { T.of_code (number N text.new at) ≡ value }
{
    write_bytes(text, at, &value.to_octets());
}

pub fn write_bytes(text: &mut [u8], at: usize, bytes: &[u8])
    requires { at + length bytes.now ≤ length text.old }
    ensures { text.new ≡ placed text.old at bytes.now }
{
    text[at..at + bytes.len()].copy_from_slice(bytes);
}
