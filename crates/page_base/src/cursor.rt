ghost use Rattle.std.specs.Prelude.{◌≡◌, ℕ, ◌+◌, ◌-◌, ◌*◌, ◌^◌, ◌<◌, List, Some, None, length, IsTrue, IfNone, OnSome, nat_le, if◌then◌else◌};
ghost use Rattle.std.specs.List.{list_all};
ghost use Rattle.std.specs.Option.{SomeIff};
ghost use Rattle.page_base.specs.Decimals.{is_digit, digits_of, after_digits, number_of, number_at, is_canonical};

use std::marker::Model;

/// A place in some bytes. It is seen as the bytes that are left.
#[derive(Drop)]
pub struct Cursor<'a> {
    rest: &'a [u8],
}

impl<'a> Model for Cursor<'a> {
    ghost Value = { List ℕ };

    ghost view = { λ cursor. cursor.rest.now };
}

impl<'a> Cursor<'a> {
    /// A cursor before the first of these bytes. Takes no memory.
    pub fn new(bytes: &'a [u8]) -> Cursor<'a>
        ensures { result ≡ bytes.now }
    {
        Cursor { rest: bytes }
    }

    /// The bytes that are left. Takes no memory.
    pub fn rest(&self) -> &'a [u8]
        ensures { result.now ≡ self.now }
    {
        self.rest
    }

    /// Reads the number that the longest run of decimal digits here spells, and steps behind it.
    ///
    /// Answers None, and stays, exactly where that run is empty, begins with 0 and is longer than one digit, or spells a
    /// number above `most`. Takes no memory.
    pub fn read_u64(&mut self, most: u64) -> Option<u64>
        ensures number { result ≡ number_at most self.old }
        ensures behind { OnSome result (self.new ≡ after_digits self.old) }
        ensures stays { IfNone result (self.new ≡ self.old) }
    {
        let (digits, rest) = self.rest.split_at(digits_len(self.rest));
        if !has_one_spelling(digits) {
            return None;
        }
        let number = number_up_to(digits, most)?;
        self.rest = rest;
        Some(number)
    }
}

// How long the run of digits at the front is.
fn digits_len(bytes: &[u8]) -> usize
    ensures { result ≡ length (digits_of bytes.now) }
{
    bytes
        .iter()
        .take_while(|byte| byte.is_ascii_digit())
        .count()
}

fn has_one_spelling(digits: &[u8]) -> bool
    ensures { result ≡ is_canonical digits.now }
{
    match digits {
        [] => false,
        [_] => true,
        [first, ..] => *first != b'0',
    }
}

// The number that digits spell, unless it is above `most`.
fn number_up_to(digits: &[u8], most: u64) -> Option<u64>
    requires { IsTrue (list_all is_digit digits.now) }
    ensures { result ≡ (if nat_le (number_of digits.now) most then Some (number_of digits.now) else None) }
{
    let mut number: u64 = 0;
    let mut rest = digits;
    while let Some((digit, after)) = rest.split_first() {
        number = with_digit(number, *digit)?;
        rest = after;
    }
    if number <= most { Some(number) } else { None }
}

// A number with one more digit at its end.
fn with_digit(number: u64, digit: u8) -> Option<u64>
    requires { IsTrue (is_digit digit) }
    ensures { SomeIff result (number * 10 + (digit - 48) < 2 ^ 64) (number * 10 + (digit - 48)) }
{
    number.checked_mul(10)?.checked_add(u64::from(digit - b'0'))
}
