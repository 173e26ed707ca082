// Numbers as a person writes them: decimal, as 336, or hexadecimal, as 0x0150. Each way to be wrong has its name.
ghost use Rattle.std.specs.Prelude.{◌≡◌, true, false, ◌≤◌};
ghost use Rattle.text.specs.Within.{Within};
ghost use Rattle.text.specs.Number.{digit_of, times_base, grown, read_decimal, read_hex, begun, after_zero, read_byte, ended, read_on, number_in};

// Why a text is no number.
#[derive(Clone, Copy, Debug, PartialEq, Eq)]
pub enum Fault {
    Empty,
    NotADigit,
    HAtTheEnd,
    HexWithoutPrefix,
    NoDigitAfterPrefix,
    NotFourDigits,
    TooLarge,
}

// A byte as a digit: 0 to 9, a letter that counts 10 to 15, an h, or none.
#[derive(Clone, Copy)]
pub enum Digit {
    Decimal(u8),
    Letter(u8),
    H,
    Other,
}

// What has been read: nothing, a 0, decimal digits, 0x, 0x with digits.
#[derive(Clone, Copy)]
pub enum Reading {
    Nothing,
    Zero,
    Decimal(u64),
    Prefix,
    Hex(u64),
}

#[tactic(auto, unfolding(crate::specs::Number::digit_of))]
pub(crate) fn digit_of(b: u8) -> Digit
    ensures { result ≡ digit_of b }
{
    match b {
        b'0'..=b'9' => Digit::Decimal(b - b'0'),
        b'A'..=b'F' => Digit::Letter(b - b'A' + 10),
        b'a'..=b'f' => Digit::Letter(b - b'a' + 10),
        b'H' | b'h' => Digit::H,
        _ => Digit::Other,
    }
}

fn times_base(value: u64, hex: bool) -> u64
    requires { value ≤ 4294967295 }
    ensures { Within 68719476720 (times_base value hex) result }
{
    if hex { value * 16 } else { value * 10 }
}

// One digit more. Numbers above 4,294,967,295 are too large.
#[tactic(auto, unfolding(crate::specs::Number::grown))]
fn grown(value: u64, hex: bool, digit: u8) -> Result<u64, Fault>
    ensures { result ≡ grown value hex digit }
{
    if 4294967295 < value {
        return Err(Fault::TooLarge);
    }
    let next = times_base(value, hex) + u64::from(digit);
    if 4294967295 < next {
        return Err(Fault::TooLarge);
    }
    Ok(next)
}

#[tactic(auto, unfolding(crate::specs::Number::read_decimal))]
fn read_decimal(value: u64, digit: Digit) -> Result<Reading, Fault>
    ensures { result ≡ read_decimal value digit }
{
    match digit {
        Digit::Decimal(d) => Ok(Reading::Decimal(grown(value, false, d)?)),
        Digit::Letter(_) => Err(Fault::HexWithoutPrefix),
        Digit::H => Err(Fault::HAtTheEnd),
        Digit::Other => Err(Fault::NotADigit),
    }
}

#[tactic(auto, unfolding(crate::specs::Number::read_hex))]
fn read_hex(value: u64, digit: Digit) -> Result<Reading, Fault>
    ensures { result ≡ read_hex value digit }
{
    match digit {
        Digit::Decimal(d) | Digit::Letter(d) => Ok(Reading::Hex(grown(value, true, d)?)),
        Digit::H => Err(Fault::HAtTheEnd),
        Digit::Other => Err(Fault::NotADigit),
    }
}

// The first byte: a 0 in front may become 0x.
#[tactic(auto, unfolding(crate::specs::Number::begun))]
fn begun(b: u8) -> Result<Reading, Fault>
    ensures { result ≡ begun b }
{
    match b {
        b'0' => Ok(Reading::Zero),
        _ => read_decimal(0, digit_of(b)),
    }
}

#[tactic(auto, unfolding(crate::specs::Number::after_zero))]
fn after_zero(b: u8) -> Result<Reading, Fault>
    ensures { result ≡ after_zero b }
{
    match b {
        b'x' | b'X' => Ok(Reading::Prefix),
        _ => read_decimal(0, digit_of(b)),
    }
}

// One byte more.
#[tactic(auto, unfolding(crate::specs::Number::read_byte))]
fn read_byte(r: Reading, b: u8) -> Result<Reading, Fault>
    ensures { result ≡ read_byte r b }
{
    match r {
        Reading::Nothing => begun(b),
        Reading::Zero => after_zero(b),
        Reading::Decimal(value) => read_decimal(value, digit_of(b)),
        Reading::Prefix => read_hex(0, digit_of(b)),
        Reading::Hex(value) => read_hex(value, digit_of(b)),
    }
}

#[tactic(auto, unfolding(crate::specs::Number::ended))]
fn ended(r: Reading) -> Result<u64, Fault>
    ensures { result ≡ ended r }
{
    match r {
        Reading::Nothing => Err(Fault::Empty),
        Reading::Zero => Ok(0),
        Reading::Prefix => Err(Fault::NoDigitAfterPrefix),
        Reading::Decimal(value) | Reading::Hex(value) => Ok(value),
    }
}

// The bytes of a text, after what has been read before. The first mistake stays.
pub(crate) fn read_on(before: Reading, text: &[u8]) -> Result<u64, Fault>
    ensures { result ≡ read_on before text.now }
{
    let mut r = before;
    for b in text {
        r = read_byte(r, *b)?;
    }
    ended(r)
}

pub fn number_in(text: &[u8]) -> Result<u64, Fault>
    ensures { result ≡ number_in text.now }
{
    read_on(Reading::Nothing, text)
}
