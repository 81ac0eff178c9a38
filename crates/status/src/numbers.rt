//! Numbers as text: whole ones, and microseconds in seconds.

ghost use Rattle.std.specs.Prelude.{◌≡◌, ◌++◌, decimal, OnOk};
ghost use Rattle.status.specs.Numbers.{last_digit, six_digits, with_number};

use crate::family::Number;
use crate::printing::put;
use itoa::Buffer;
use std::alloc::AllocError;

/// Adds a number.
#[tactic(auto, unfolding(crate::specs::Numbers::with_number))]
pub(crate) fn put_number(text: &mut Vec<u8>, number: Number) -> Result<(), AllocError>
    ensures { OnOk result (text.new.items ≡ with_number text.old.items number) }
{
    match number {
        Number::Whole(number) => put_whole(text, number),
        Number::Seconds(micros) => {
            put_whole(text, micros / 1_000_000)?;
            put(text, ".")?;
            put_six_digits(text, micros)
        }
    }
}

/// Adds the last six digits of a number.
fn put_six_digits(text: &mut Vec<u8>, number: u64) -> Result<(), AllocError>
    ensures { OnOk result (text.new.items ≡ text.old.items ++ six_digits number) }
{
    text.extend_from_slice(&[
        last_digit(number / 100_000),
        last_digit(number / 10_000),
        last_digit(number / 1_000),
        last_digit(number / 100),
        last_digit(number / 10),
        last_digit(number),
    ])
}

/// The last digit of a number.
fn last_digit(number: u64) -> u8
    ensures { result ≡ last_digit number }
{
    b'0' + (number % 10) as u8
}

/// Adds a whole number.
pub(crate) fn put_whole(text: &mut Vec<u8>, number: u64) -> Result<(), AllocError>
    ensures { OnOk result (text.new.items ≡ text.old.items ++ decimal number) }
{
    let mut digits = Buffer::new();
    put(text, digits.format(number))
}
