ghost use Rattle.std.specs.Prelude.{◌≡◌};
ghost use Rattle.xtbml_subset.specs.Classes.{is_in, starts_name};
ghost use Rattle.xtbml_subset.specs.declared.class.Class.TheVariants.{White, Name};

/// A class of bytes that the grammar names.
#[derive(Clone, Copy)]
pub enum Class {
    /// A blank, a tab, a line feed or a carriage return.
    White,
    /// A byte that may stand in a name after its first.
    Name,
    /// What may stand in a value between two `"`.
    DoubleQuoted,
    /// What may stand in a value between two `'`.
    SingleQuoted,
    /// What may stand in a declaration.
    Declared,
    /// A byte of text.
    Text,
}

pub fn starts_name(byte: u8) -> bool
    ensures { result ≡ starts_name byte }
{
    (65 <= byte && byte <= 90) || (97 <= byte && byte <= 122) || byte == 95 || 128 <= byte
}

fn is_white(byte: u8) -> bool
    ensures { result ≡ is_in White byte }
{
    byte == 9 || byte == 10 || byte == 13 || byte == 32
}

fn is_name(byte: u8) -> bool
    ensures { result ≡ is_in Name byte }
{
    starts_name(byte) || (48 <= byte && byte <= 57) || byte == 45 || byte == 46 || byte == 58
}

pub fn is_in(class: Class, byte: u8) -> bool
    ensures { result ≡ is_in class byte }
{
    match class {
        Class::White => is_white(byte),
        Class::Name => is_name(byte),
        Class::DoubleQuoted => byte != 34 && byte != 60,
        Class::SingleQuoted => byte != 39 && byte != 60,
        Class::Declared => byte != 63,
        Class::Text => byte != 60,
    }
}
