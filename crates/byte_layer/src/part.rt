ghost use Rattle.std.specs.Prelude.{◌≡◌, ℕ, ◌+◌, ◌≤◌, List, length};
ghost use Rattle.std.specs.List.{flat_map};
ghost use Rattle.byte_layer.specs.Number.{placed};
ghost use Rattle.byte_layer.specs.Part.{four_at};

// That a part lies within the text is asked at each call, as in number.rt.
// A part of a row, as its share of one quarter: `K` bytes of a text, read and written at a place.
pub trait Part<const K: usize>: Copy {
    // The part whose bytes stand at a place of a text.
    ghost stands: { List ℕ → ℕ → Self };

    ghost bytes: { Self → List ℕ };

    fn read(text: &[u8], at: usize) -> Self
        requires { at + K ≤ length text.now }
        ensures { result ≡ stands text.now at };

    fn write(&self, text: &mut [u8], at: usize)
        requires { at + K ≤ length text.old }
        ensures size { length (bytes self.now) ≡ K }
        ensures written { text.new ≡ placed text.old at (bytes self.now) };
}

// Each part's place stands in its line, here and in `write_four`: tried with `array::from_fn`, and its closure would have to
// state again where each part lies.

// Four parts that stand one behind the other.
pub fn read_four<P: Part<K>, const K: usize>(text: &[u8], at: usize) -> [P; 4]
    requires { at + (K + (K + (K + K))) ≤ length text.now }
    ensures { result ≡ four_at P.stands K text.now at }
{
    [
        P::read(text, at),
        P::read(text, at + K),
        P::read(text, at + K + K),
        P::read(text, at + K + K + K),
    ]
}

// Writes four parts one behind the other.
pub fn write_four<P: Part<K>, const K: usize>(text: &mut [u8], at: usize, parts: &[P; 4])
    requires { at + (K + (K + (K + K))) ≤ length text.old }
    ensures { text.new ≡ placed text.old at (flat_map P.bytes parts.now) }
{
    let [a, b, c, d] = parts;
    a.write(text, at);
    b.write(text, at + K);
    c.write(text, at + K + K);
    d.write(text, at + K + K + K);
}
