//! The number of a call, as a word gives it.
ghost use Rattle.std.specs.Prelude.{◌≡◌};
ghost use Rattle.std.specs.List.{list_all};
ghost use Rattle.plans.specs.Texts.{is_digit, is_numeral};
ghost use Rattle.mgexplain.specs.Forms.{call_number};

/// Whether each byte is a digit.
fn are_digits(bytes: &[u8]) -> bool
    ensures { result ≡ list_all (λ byte. is_digit byte) bytes.now }
{
    bytes.iter().all(|byte| byte.is_ascii_digit())
}

/// Whether a text is decimal digits without leading zeros.
#[tactic(auto, unfolding(plans::specs::Texts::is_numeral))]
fn is_numeral(text: &str) -> bool
    ensures { result ≡ is_numeral text.now }
{
    let bytes = text.as_bytes();
    if bytes.is_empty() {
        return false;
    }
    are_digits(bytes) && (bytes.len() == 1 || bytes[0] != b'0')
}

/// The number of a call that a word gives, in decimal digits without leading zeros.
pub(crate) fn call_number(word: &str) -> Option<u32>
    ensures { result ≡ call_number word.now }
{
    if !is_numeral(word) {
        return None;
    }
    let Ok(number) = word.parse::<u32>() else {
        return None;
    };
    Some(number)
}
