// Which bytes the value of a field may have.
ghost use Rattle.std.specs.Prelude.{◌≡◌};
ghost use Rattle.pages.specs.Values.{begins_name, digit, in_name, after_digits, is_name, is_suffix, is_integer, is_fraction, is_float};

use super::classes::{Class, class_of};

// A letter or `_`.
fn begins_name(b: u8) -> bool
    ensures { result ≡ begins_name b }
{
    matches!(class_of(b), Class::Letter)
}

fn is_digit(b: u8) -> bool
    ensures { result ≡ digit b }
{
    matches!(class_of(b), Class::Digit)
}

fn is_in_name(b: u8) -> bool
    ensures { result ≡ in_name b }
{
    matches!(class_of(b), Class::Letter | Class::Digit)
}

// What follows the digits at the start.
fn after_digits(bytes: &[u8]) -> &[u8]
    ensures { result.now ≡ after_digits bytes.now }
{
    let digits = bytes.iter().take_while(|b| is_digit(**b)).count();
    &bytes[digits..]
}

// Whether these bytes are a name: a letter or `_`, then letters, digits or `_`.
pub fn is_name(bytes: &[u8]) -> bool
    ensures { result ≡ is_name bytes.now }
{
    match bytes {
        [first, rest @ ..] => begins_name(*first) && rest.iter().all(|b| is_in_name(*b)),
        [] => false,
    }
}

// Whether these bytes may follow the digits of an integer.
fn is_suffix(bytes: &[u8]) -> bool
    ensures { result ≡ is_suffix bytes.now }
{
    match bytes {
        [] => true,
        [b'_' | b'b' | b'e' | b'E' | b'o' | b'x', ..] => false,
        _ => is_name(bytes),
    }
}

pub fn is_integer(bytes: &[u8]) -> bool
    ensures { result ≡ is_integer bytes.now }
{
    match bytes {
        [first, rest @ ..] => is_digit(*first) && is_suffix(after_digits(rest)),
        [] => false,
    }
}

// Whether these bytes may follow the first digits of a float.
fn is_fraction(bytes: &[u8]) -> bool
    ensures { result ≡ is_fraction bytes.now }
{
    match bytes {
        [b'.', rest @ ..] => rest.iter().all(|b| is_digit(*b)),
        _ => false,
    }
}

// As `is_integer`, but for the test of what follows the digits: a parameter for it would be no shorter.
pub fn is_float(bytes: &[u8]) -> bool
    ensures { result ≡ is_float bytes.now }
{
    match bytes {
        [first, rest @ ..] => is_digit(*first) && is_fraction(after_digits(rest)),
        [] => false,
    }
}
