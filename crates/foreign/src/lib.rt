#![tactic(auto)]

ghost use Rattle.std.specs.Prelude.{◌≡◌};
ghost use Rattle.book.specs.Reading.{checked};
ghost use Rattle.foreign.specs.Outcome.{fault_number, place_or_length, rows_found};

use book::check::check;

// The check of a text for programs in other languages: plain numbers in place of the result.

// The number of the first fault, or 0 where the text passes.
#[unsafe(no_mangle)]
pub extern "C" fn jertsola_check_fault(text: &[u8]) -> u64
    ensures { result ≡ fault_number (checked text.now) }
{
    check(text).map_or_else(|fault| u64::from(fault.tell().number), |_found| 0)
}

// The place of the first fault, or the book's length where the text passes.
#[unsafe(no_mangle)]
pub extern "C" fn jertsola_check_place(text: &[u8]) -> usize
    ensures { result ≡ place_or_length (checked text.now) }
{
    check(text).map_or_else(|fault| fault.tell().place, |found| found.length)
}

// The number of rows, or 0 where the text fails.
#[unsafe(no_mangle)]
pub extern "C" fn jertsola_check_rows(text: &[u8]) -> usize
    ensures { result ≡ rows_found (checked text.now) }
{
    check(text).map_or(0, |found| found.rows)
}
