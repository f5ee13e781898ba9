ghost use Rattle.std.specs.Prelude.{◌≡◌, Some, IfSome};
ghost use Rattle.mg_names.specs.Words.{symbol_text, symbol_named};

/// A dialled symbol (H.248.1 section 7.1.14 and Annex E.6: `*` is E and `#` is F).
#[derive(Clone, Copy, PartialEq, Eq)]
pub enum Symbol {
    /// The digit 0.
    Zero,
    /// The digit 1.
    One,
    /// The digit 2.
    Two,
    /// The digit 3.
    Three,
    /// The digit 4.
    Four,
    /// The digit 5.
    Five,
    /// The digit 6.
    Six,
    /// The digit 7.
    Seven,
    /// The digit 8.
    Eight,
    /// The digit 9.
    Nine,
    /// The key `*`.
    E,
    /// The key `#`.
    F,
}

impl Symbol {
    /// The word as scripts, certificates and output write it.
    pub fn text(self) -> &'static str
        ensures word { result.now ≡ symbol_text self }
        ensures read_back { symbol_named result.now ≡ Some self }
    {
        match self {
            Symbol::Zero => "0",
            Symbol::One => "1",
            Symbol::Two => "2",
            Symbol::Three => "3",
            Symbol::Four => "4",
            Symbol::Five => "5",
            Symbol::Six => "6",
            Symbol::Seven => "7",
            Symbol::Eight => "8",
            Symbol::Nine => "9",
            Symbol::E => "E",
            Symbol::F => "F",
        }
    }

    /// The symbol that a word names; `None` for every other text.
    pub fn read(word: &str) -> Option<Symbol>
        ensures named { result ≡ symbol_named word.now }
        ensures no_other { IfSome result (λ found. symbol_text found ≡ word.now) }
    {
        match word {
            "0" => Some(Symbol::Zero),
            "1" => Some(Symbol::One),
            "2" => Some(Symbol::Two),
            "3" => Some(Symbol::Three),
            "4" => Some(Symbol::Four),
            "5" => Some(Symbol::Five),
            "6" => Some(Symbol::Six),
            "7" => Some(Symbol::Seven),
            "8" => Some(Symbol::Eight),
            "9" => Some(Symbol::Nine),
            "E" => Some(Symbol::E),
            "F" => Some(Symbol::F),
            _ => None,
        }
    }
}
