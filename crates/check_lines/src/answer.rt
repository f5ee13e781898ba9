//! What the checking of a script and a certificate comes to.

/// The first obligation that a certificate breaks.
#[derive(Drop)]
pub struct Broken {
    /// The obligation's number.
    pub obligation: u8,
    /// The certificate's entry, from 0, where the obligation is about one.
    pub entry: Option<usize>,
    /// The point of that entry, from 0.
    pub point: Option<u32>,
    /// The step from that point, in words.
    pub step: Option<String>,
}

/// What the program says of a script and a certificate.
#[derive(Drop)]
pub enum Answer {
    /// Every obligation holds. The counts are of the script's states, the certificate's entries and
    /// the well-formed points over all entries.
    Yes {
        states: usize,
        entries: usize,
        points: u128,
    },
    /// An obligation is broken.
    No(Broken),
    /// The script is not read, by the number and the name of its fault.
    ScriptFault {
        number: u8,
        name: &'static str,
    },
    /// The certificate is not read, by the number and the name of its fault.
    CertificateFault {
        number: u8,
        name: &'static str,
    },
    /// There was no memory to check them.
    NoMemory,
}
