ghost use Rattle.std.specs.Prelude.{◌≡◌, Some, IfSome};
ghost use Rattle.mg_names.specs.Words.{topology_text, topology_named};

/// What a Topology descriptor says of a first and a second termination (H.248.1 section 7.1.18).
#[derive(Clone, Copy, PartialEq, Eq)]
pub enum Topology {
    /// Neither receives from the other.
    Isolate,
    /// The second receives from the first, and the first nothing from the second.
    Oneway,
    /// Both receive from each other.
    Bothway,
}

impl Topology {
    /// The word as scripts, certificates and output write it.
    pub fn text(self) -> &'static str
        ensures word { result.now ≡ topology_text self }
        ensures read_back { topology_named result.now ≡ Some self }
    {
        match self {
            Topology::Isolate => "isolate",
            Topology::Oneway => "oneway",
            Topology::Bothway => "bothway",
        }
    }

    /// The topology that a word names; `None` for every other text.
    pub fn read(word: &str) -> Option<Topology>
        ensures named { result ≡ topology_named word.now }
        ensures no_other { IfSome result (λ found. topology_text found ≡ word.now) }
    {
        match word {
            "isolate" => Some(Topology::Isolate),
            "oneway" => Some(Topology::Oneway),
            "bothway" => Some(Topology::Bothway),
            _ => None,
        }
    }
}
