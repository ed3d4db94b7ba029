//! Bytes put into room, behind those that are there.

ghost use Rattle.std.specs.Prelude.{◌≡◌, ◌<◌, ◌≤◌, ◌+◌, ◌++◌, length, take, decimal};

use itoa::write_digits;

/// Puts bytes into the room from a place on. It gives the place behind them.
#[inline(always)]
pub(crate) fn put(room: &mut [u8], at: usize, bytes: &[u8]) -> usize
    requires { at + length bytes.now ≤ length room.old }
    ensures place { result ≡ at + length bytes.now }
    ensures text { take result room.new ≡ take at room.old ++ bytes.now }
    ensures room { length room.new ≡ length room.old }
{
    let behind = at + bytes.len();
    room[at..behind].copy_from_slice(bytes);
    behind
}

/// Puts the digits of a number, at most five, into the room from a place on.
/// It gives the place behind them.
#[inline(always)]
pub(crate) fn put_digits(room: &mut [u8], at: usize, number: u64) -> usize
    requires few { number < 100000 }
    requires room { at + 5 ≤ length room.old }
    ensures place { result ≡ at + length (decimal number) }
    ensures text { take result room.new ≡ take at room.old ++ decimal number }
    ensures room { length room.new ≡ length room.old }
{
    if number < 10 {
        return put(room, at, &[b'0' + number as u8]);
    }
    let behind = at + digit_count(number);
    write_digits(number, room, behind);
    behind
}

/// How many digits a number has, at most five.
#[inline(always)]
fn digit_count(number: u64) -> usize
    requires { number < 100000 }
    ensures count { result ≡ length (decimal number) }
    ensures few { result ≤ 5 }
{
    if number < 10 {
        1
    } else if number < 100 {
        2
    } else if number < 1000 {
        3
    } else if number < 10_000 {
        4
    } else {
        5
    }
}
