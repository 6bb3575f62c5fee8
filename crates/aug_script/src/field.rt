//! The numbers of a script.
ghost use Rattle.std.specs.Prelude.{◌≡◌, ◌&&◌, ◌||◌, nat_le, IsTrue};
ghost use Rattle.std.specs.Char.{is_ascii_digit};
ghost use Rattle.std.specs.List.{list_all};
ghost use Rattle.std.specs.Str.Parse.{digits_value};
ghost use Rattle.aug_script.specs.Script.{is_number as is_number_field, is_star as is_star_field};

fn are_digits(field: &[u8]) -> bool
    ensures { result ≡ list_all is_ascii_digit field.now }
{
    field.iter().all(|b| b.is_ascii_digit())
}

/// Whether a field is 1 to 9 decimal digits.
pub(crate) fn is_number(field: &[u8]) -> bool
    ensures { result ≡ is_number_field field.now }
{
    1 <= field.len() && field.len() <= 9 && are_digits(field)
}

/// The number that 1 to 9 decimal digits write.
pub(crate) fn number(field: &[u8]) -> u32
    requires { IsTrue (is_number_field field.now) }
    ensures { result ≡ digits_value 10 field.now }
{
    let mut value = 0;
    for b in field {
        value = value * 10 + u32::from(*b - b'0');
    }
    value
}

/// Whether a field is `*`.
pub(crate) fn is_star(field: &[u8]) -> bool
    ensures { result ≡ is_star_field field.now }
{
    field == b"*".as_slice()
}

/// Whether a field is the number of a lane, or `*`.
pub(crate) fn is_lane(field: &[u8]) -> bool
    ensures { result ≡ (is_number_field field.now || is_star_field field.now) }
{
    is_number(field) || is_star(field)
}

/// Whether every byte of a field is from 32 to 126.
pub(crate) fn is_printable(field: &[u8]) -> bool
    ensures { result ≡ list_all (λ b. nat_le 32 b && nat_le b 126) field.now }
{
    field.iter().all(|b| 32 <= *b && *b <= 126)
}
