ghost use Rattle.std.specs.Prelude.{◌≡◌, ℕ, ◌≤◌, IfSome, IfNone, length};
ghost use Rattle.std.specs.Str.Parse.{AllDigits, digits_value};
ghost use Rattle.basis_book.specs.Points.{IsPoints};

/// The number that at most four digits write.
fn short_number(text: &[u8]) -> Option<u16>
    requires { length text.now ≤ 4 }
    ensures found { IfSome result (λ n. AllDigits 10 text.now × (n ≡ digits_value 10 text.now)) }
    ensures none { IfNone result (AllDigits 10 text.now → ⊥) }
{
    let mut number = 0;
    for byte in text {
        if !byte.is_ascii_digit() {
            return None;
        }
        number = number * 10 + u16::from(*byte - b'0');
    }
    Some(number)
}

/// The basis points that a text writes: a whole number from 0 to 2000 with no leading zero.
pub fn points_of(text: &[u8]) -> Option<u16>
    ensures found { IfSome result (IsPoints text.now) }
    ensures none { IfNone result ((points : ℕ) → IsPoints text.now points → ⊥) }
{
    if text.is_empty() {
        return None;
    }
    if text.len() > 4 {
        return None;
    }
    if text.len() > 1 && text[0] == b'0' {
        return None;
    }
    short_number(text).filter(|points| *points <= 2000)
}
