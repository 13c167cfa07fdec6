//! Sizes of files, as options give them.
ghost use Rattle.std.specs.Prelude.{◌≡◌};
ghost use Rattle.grep_options.specs.Sizes.{digits_from, is_decimal, number_of, size_of, size_unit, add_decimal};

/// What the last letter of a size multiplies its number by, if it is one.
fn size_unit(byte: u8) -> Option<u64>
    ensures { result ≡ size_unit byte }
{
    match byte {
        b'K' => Some(0x400),
        b'M' => Some(0x10_0000),
        b'G' => Some(0x4000_0000),
        _ => None,
    }
}

fn is_decimal(byte: u8) -> bool
    ensures { result ≡ is_decimal byte }
{
    b'0' <= byte && byte <= b'9'
}

/// The number with one more digit, if this byte is one and the number has 64 bits.
fn add_decimal(number: u64, byte: u8) -> Option<u64>
    ensures { result ≡ add_decimal number byte }
{
    if !is_decimal(byte) {
        return None;
    }
    let tens = number.checked_mul(10)?;
    tens.checked_add((byte - b'0') as u64)
}

/// The number with these digits after its own.
fn digits_from(start: u64, digits: &[u8]) -> Option<u64>
    ensures { result ≡ digits_from start digits.now }
{
    let mut number = start;
    for byte in digits {
        number = add_decimal(number, *byte)?;
    }
    Some(number)
}

fn number_of(digits: &[u8]) -> Option<u64>
    ensures { result ≡ number_of digits.now }
{
    if digits.is_empty() {
        return None;
    }
    digits_from(0, digits)
}

/// The size that is given by decimal digits, after which K, M or G may follow.
pub fn size_of(text: &str) -> Option<u64>
    ensures { result ≡ size_of text.now }
{
    let text = text.as_bytes();
    if text.is_empty() {
        return None;
    }
    let last = text.len() - 1;
    match size_unit(text[last]) {
        Some(unit) => {
            let number = number_of(&text[..last])?;
            number.checked_mul(unit)
        }
        None => number_of(text),
    }
}
