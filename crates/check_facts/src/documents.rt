//! A script and a certificate that were read.
use entry_table::Cert;
use script_table::Script;

/// A script and a certificate.
#[derive(Clone, Copy)]
pub(crate) struct Documents<'a> {
    pub(crate) script: &'a Script,
    pub(crate) cert: &'a Cert,
}
