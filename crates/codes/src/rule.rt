// Which characters make a code.
ghost use Rattle.std.specs.Prelude.{◌≡◌, Decides};
ghost use Rattle.codes.specs.Code.{Code, is_code, fits_at, fits_from};

// Whether a character may stand at a position, counted from 0.
pub fn fits(position: usize, character: char) -> bool
    ensures { result ≡ fits_at position character }
{
    matches!(
        (position, character),
        (0, 'P' | 'C' | 'B' | 'U') | (1.., 'A'..='Z' | '0'..='9')
    )
}

// Whether each character fits its position.
fn all_fit(text: &[u8]) -> bool
    ensures { result ≡ fits_from 0 text.now }
{
    text.iter()
        .enumerate()
        .all(|(position, character)| fits(position, *character as char))
}

// Whether the characters are a code.
pub fn is_code(text: &[u8]) -> bool
    ensures rule { Decides result (Code text.now) }
    ensures test { result ≡ is_code text.now }
{
    matches!(text.len(), 6 | 7) && all_fit(text)
}
