// Numerals: decimal digits, or 0x and hexadecimal digits.
ghost use Rattle.std.specs.Prelude.{◌≡◌, ◌+◌, ◌*◌, ◌^◌, ◌<◌, ◌≤◌, true, length};
ghost use Rattle.std.specs.Option.{SomeIff};
ghost use Rattle.std.specs.Str.Parse.{IsNumeral, digits_value};
ghost use Rattle.std.specs.Char.{digit_value};
ghost use Rattle.text.specs.Numerals.{Writes, value_of};

// The number whose digits are those of `n` and then `b`.
fn with_digit(n: u64, base: u32, b: u8) -> Option<u64>
    requires low { 2 ≤ base }
    requires high { base ≤ 36 }
    ensures { SomeIff result ((digit_value b < base) × (n * base + digit_value b < 2 ^ 64)) (n * base + digit_value b) }
{
    let d = char::from(b).to_digit(base)?;
    n.checked_mul(u64::from(base))?.checked_add(u64::from(d))
}

// The number that the digits write in the base, where there are digits alone and it is below 2^64.
fn in_base(digits: &[u8], base: u32) -> Option<u64>
    requires low { 2 ≤ base }
    requires high { base ≤ 36 }
    ensures { SomeIff result (IsNumeral base digits.now × (digits_value base digits.now < 2 ^ 64)) (digits_value base digits.now) }
{
    if digits.is_empty() {
        return None;
    }
    // A loop, and no try_fold: of that it is not proved which digit broke it off.
    let mut n = 0;
    for &b in digits {
        n = with_digit(n, base, b)?;
    }
    Some(n)
}

/// The number that a word writes, in decimal digits or in hexadecimal ones after `0x` or `0X`.
/// None where it writes none, or one past 2^64 - 1.
pub fn number(word: &[u8]) -> Option<u64>
    ensures { SomeIff result (Writes word.now × (value_of word.now < 2 ^ 64)) (value_of word.now) }
{
    match word {
        [b'0', b'x' | b'X', digits @ ..] => in_base(digits, 16),
        _ => in_base(word, 10),
    }
}
