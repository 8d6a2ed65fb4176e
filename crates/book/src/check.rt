ghost use Rattle.std.specs.Prelude.{◌≡◌, IfOk};
ghost use Rattle.byte_layer.specs.Fault.{heard};
ghost use Rattle.book.specs.Fault.{told_book};
ghost use Rattle.book.specs.Reading.{checked, rows_in};
ghost use Rattle.book.specs.Writing.{Written};

use crate::fault::BookFault;
use crate::stand::Stand;
use crate::step::step;
use byte_layer::number::are_octets;

// What the check of a text found: the book's length, its seal included, and how many rows it has.
#[derive(Clone, Copy)]
pub struct Checked {
    pub length: usize,
    pub rows: usize,
}

// Text and stand are two values, and no reader of both, which each step would take apart again. A step may fail and moves
// both on: a `try_fold` would carry them, and be no plainer.
fn scan(text: &[u8]) -> Result<Checked, BookFault>
    ensures { heard told_book result ≡ checked text.now }
{
    let mut rest = text;
    let mut s = Stand::begin();
    while let Some((row, next)) = step(rest, s)? {
        rest = &rest[row.size()..];
        s = next;
    }
    Ok(Checked {
        length: s.at + 1,
        rows: s.rows,
    })
}

// The check of a text, in one pass: its length and rows, or the first fault. What stands behind the seal is not
// looked at. A text that checks is, up to its length, what a writer writes of the rows that it tells.
pub fn check(text: &[u8]) -> Result<Checked, BookFault>
    ensures found { heard told_book result ≡ checked text.now }
    ensures written { IfOk result (λ k. Written text.now k.length (rows_in text.now)) }
{
    are_octets(text);
    scan(text)
}
