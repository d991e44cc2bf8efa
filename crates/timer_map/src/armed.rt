ghost use Rattle.std.specs.Prelude.{◌≡◌, ◌^◌, ◌<◌};
ghost use Rattle.page_parts.specs.Timers.{milliseconds as milliseconds_of, clamped as clamped_of};

use page_base::Micros;

/// What initialising a timer gives.
#[derive(Clone, Copy, PartialEq, Eq, Debug)]
pub struct Armed {
    /// The id, as `setTimeout` and `setInterval` answer it.
    pub id: u32,
    /// The unique handle that the id has in the map from now on.
    pub handle: u64,
    /// The start number of the active timer.
    pub start: u64,
    /// When the active timer is due.
    pub due: Micros,
    /// The nesting level of the timer's task.
    pub level: u32,
}

const WORD: u64 = 1 << 32;

// The timeout in milliseconds: modulo 2^32 into the range of 32 bits with a sign (Web IDL, "long"), and 0 where it is below 0.
pub(crate) fn milliseconds(timeout: i64) -> u64
    ensures value { result ≡ milliseconds_of timeout }
    ensures small { result < 2 ^ 31 }
{
    let word = timeout.cast_unsigned() % WORD;
    if word < WORD / 2 { word } else { 0 }
}

// A nesting level above 5 makes a timeout 4 milliseconds at least.
pub(crate) fn clamped(nesting: u32, milliseconds: u64) -> u64
    requires { milliseconds < 2 ^ 31 }
    ensures value { result ≡ clamped_of nesting milliseconds }
    ensures small { result < 2 ^ 31 }
{
    if nesting > 5 {
        milliseconds.max(4)
    } else {
        milliseconds
    }
}
