// Decimal numbers, 0 to 65,535 without a leading zero.
ghost use Rattle.std.specs.Prelude.{◌≡◌};
ghost use Rattle.cutter.specs.ReadNumber.{digits_number, number_in, number_after};

// The largest number of a sheet.
const MOST_NUMBER: u32 = 65535;

// What digits say, leading zeros or none.
fn read_digits(digits: &[u8]) -> Option<u32>
    ensures { result ≡ digits_number 0 digits.now }
{
    let mut v = 0;
    for b in digits {
        if !b.is_ascii_digit() {
            return None;
        }
        v = 10 * v + u32::from(*b - b'0');
        if MOST_NUMBER < v {
            return None;
        }
    }
    Some(v)
}

// What a text says as a number.
fn read_number(digits: &[u8]) -> Option<u32>
    ensures { result ≡ number_in digits.now }
{
    if digits.is_empty() {
        return None;
    }
    if 1 < digits.len() && digits.starts_with(b"0") {
        return None;
    }
    read_digits(digits)
}

// What a word says as a number after a key.
pub fn read_pair(word: &[u8], key: &[u8]) -> Option<u32>
    ensures { result ≡ number_after key.now word.now }
{
    read_number(word.strip_prefix(key)?)
}
