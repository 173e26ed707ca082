// An address as it is written: four hexadecimal digits, as the tool, logs and listings write it (0300); 0x or $ and hexadecimal digits
// (0x300, $0300); decimal digits and a dot (768.); or one decimal digit, which is the same both ways. A person reads 150 as one number
// and a log as another, so that it is none.
ghost use Rattle.std.specs.Prelude.{◌≡◌};
ghost use Rattle.text.specs.Address.{is_digit, all_digits, not_digits, hex_in, decimal_in, plain_in, address_in};

use crate::number::{Digit, Fault, Reading, digit_of, read_on};

fn is_digit(hex: bool, digit: Digit) -> bool
    ensures { result ≡ is_digit hex digit }
{
    match digit {
        Digit::Decimal(_) => true,
        Digit::Letter(_) => hex,
        Digit::H | Digit::Other => false,
    }
}

// Digits alone: hexadecimal, or decimal.
fn all_digits(hex: bool, word: &[u8]) -> bool
    ensures { result ≡ all_digits hex word.now }
{
    word.iter().all(|b| is_digit(hex, digit_of(*b)))
}

// Why a word is not digits alone: there is an h behind them, or something else.
#[tactic(auto, unfolding(crate::specs::Address::not_digits))]
fn not_digits(word: &[u8]) -> Fault
    ensures { result ≡ not_digits word.now }
{
    match word {
        [_, .., b'H' | b'h'] if all_digits(true, &word[..word.len() - 1]) => Fault::HAtTheEnd,
        _ => Fault::NotADigit,
    }
}

#[tactic(auto, unfolding(crate::specs::Address::hex_in))]
fn hex_in(word: &[u8]) -> Result<u64, Fault>
    ensures { result ≡ hex_in word.now }
{
    if all_digits(true, word) {
        return read_on(Reading::Prefix, word);
    }
    Err(not_digits(word))
}

#[tactic(auto, unfolding(crate::specs::Address::decimal_in))]
fn decimal_in(word: &[u8]) -> Result<u64, Fault>
    ensures { result ≡ decimal_in word.now }
{
    if 0 < word.len() && all_digits(false, word) {
        return read_on(Reading::Decimal(0), word);
    }
    Err(Fault::NotADigit)
}

// A word without a mark: four digits, or a decimal digit alone.
#[tactic(auto, unfolding(crate::specs::Address::plain_in))]
fn plain_in(word: &[u8]) -> Result<u64, Fault>
    ensures { result ≡ plain_in word.now }
{
    if word.len() == 4 || word.len() == 1 && all_digits(false, word) {
        return hex_in(word);
    }
    if all_digits(true, word) {
        return Err(Fault::NotFourDigits);
    }
    Err(not_digits(word))
}

#[tactic(auto, unfolding(crate::specs::Address::address_in))]
pub fn address_in(word: &[u8]) -> Result<u64, Fault>
    ensures { result ≡ address_in word.now }
{
    if word.is_empty() {
        return Err(Fault::Empty);
    }
    if let Some(digits) = word.strip_prefix(b"$") {
        return hex_in(digits);
    }
    if let Some(digits) = word.strip_prefix(b"0x") {
        return hex_in(digits);
    }
    if let Some(digits) = word.strip_prefix(b"0X") {
        return hex_in(digits);
    }
    if let Some(digits) = word.strip_suffix(b".") {
        return decimal_in(digits);
    }
    plain_in(word)
}
