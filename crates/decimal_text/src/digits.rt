ghost use Rattle.std.specs.Prelude.{◌≡◌, ◌<◌, ◌≤◌, length};
ghost use Rattle.std.specs.Char.{is_ascii_digit};
ghost use Rattle.std.specs.List.{prefix_len};
ghost use Rattle.std.specs.Str.Parse.{AllDigits, digits_value};
ghost use Rattle.decimal_text.specs.inside.Splits.{SplitsDigits};

/// How many digits a text begins with.
fn digits_len(text: &[u8]) -> usize
    ensures { result ≡ prefix_len is_ascii_digit text.now }
{
    text.iter().take_while(|byte| byte.is_ascii_digit()).count()
}

/// The digits at the start of a text, and what follows them.
pub fn split_digits(text: &[u8]) -> (&[u8], &[u8])
    ensures { SplitsDigits text.now result.0.now result.1.now }
{
    text.split_at(digits_len(text))
}

/// The whole number that at most three digits write.
pub fn short_number(digits: &[u8]) -> usize
    requires digits { AllDigits 10 digits.now }
    requires short { length digits.now ≤ 3 }
    ensures value { result ≡ digits_value 10 digits.now }
    ensures small { result < 1000 }
{
    let mut value = 0;
    for digit in digits {
        value = value * 10 + usize::from(*digit - b'0');
    }
    value
}
