//! The form of names, and the words that are none.
ghost use Rattle.std.specs.Prelude.{◌≡◌, map};
ghost use Rattle.std.specs.List.{list_all, list_any};
ghost use Rattle.std.specs.Str.{bytes_eq};
ghost use Rattle.typed_values.specs.Names.{is_name, is_reserved, is_name_byte, is_among};

/// Whether a name may have this byte.
fn is_name_byte(byte: u8) -> bool
    ensures { result ≡ is_name_byte byte }
{
    byte.is_ascii_lowercase() || byte.is_ascii_digit() || byte == b'_'
}

/// Whether each byte is one that a name may have.
fn are_name_bytes(bytes: &[u8]) -> bool
    ensures { result ≡ list_all (λ byte. is_name_byte byte) bytes.now }
{
    bytes.iter().all(|byte| is_name_byte(*byte))
}

/// Whether a text has the form of a name: 1 to 16 lower-case letters, digits and `_`, the first a letter. This
/// profile's own.
#[tactic(auto, unfolding(crate::specs::Names::is_name))]
pub fn is_name(text: &str) -> bool
    ensures { result ≡ is_name text.now }
{
    let bytes = text.as_bytes();
    if bytes.is_empty() || bytes.len() > 16 {
        return false;
    }
    bytes[0].is_ascii_lowercase() && are_name_bytes(bytes)
}

/// Whether a text is a word that no script may declare. This profile's own.
pub fn is_reserved(text: &str) -> bool
    ensures { result ≡ is_reserved text.now }
{
    matches!(text, "none" | "armed" | "gone" | "absent")
}

/// Whether a text is one of these.
fn is_one_of(text: &str, texts: &[&str]) -> bool
    ensures { result ≡ list_any (λ other. bytes_eq text.now other.now) texts.now }
{
    texts.iter().any(|other| text == *other)
}

/// Whether a text is one of these.
pub fn is_among(text: &str, texts: &[&str]) -> bool
    ensures { result ≡ is_among text.now (map (λ other. other.now) texts.now) }
{
    is_one_of(text, texts)
}
