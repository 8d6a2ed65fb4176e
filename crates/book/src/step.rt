ghost use Rattle.std.specs.Prelude.{◌≡◌, ◌+◌, ◌^◌, ◌<◌, length};
ghost use Rattle.byte_layer.specs.Fault.{heard};
ghost use Rattle.book.specs.Fault.{told_book};
ghost use Rattle.book.specs.Reading.{step_of};

use crate::command::Command;
use crate::fault::{BookFault, MOST_ROWS};
use crate::row::Row;
use crate::stand::Stand;

// One command of a text, of which this is the part from where the reader stands:
// the row and where the reader stands then, or nothing at the seal.
pub fn step(text: &[u8], s: Stand) -> Result<Option<(Row, Stand)>, BookFault>
    requires { s.at + length text.now < 2 ^ 64 }
    ensures { heard told_book result ≡ step_of s text.now }
{
    let command = Command::at(text, s.at)?;
    if s.due() > 0 && !command.is_bid() {
        return Err(BookFault::Member(s.rows));
    }
    if s.rows >= MOST_ROWS && !command.is_seal() {
        return Err(BookFault::Full);
    }
    let Some(row) = command.row(text, s.rows)? else {
        return Ok(None);
    };
    let next = s.after(&row)?;
    Ok(Some((row, next)))
}
