//! The law of certificates that are read. The function is empty: its contract is the law, which a crate above has by calling it.
ghost use Rattle.certificate.specs.Laws.{AcceptedCertificates};

/// Each entry of a certificate that is read for a script lists the link, and each thing of each line, context and ephemeral that
/// the script declares (this profile's own).
pub fn accepted_certificates()
    ensures { AcceptedCertificates }
{}
