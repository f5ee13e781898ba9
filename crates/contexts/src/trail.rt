//! The ephemerals at which media has arrived on its way, the last one first. A trail lies on the stack, each one linked to the
//! one before.
ghost use Rattle.std.specs.Prelude.{◌≡◌};
ghost use Rattle.contexts.specs.Paths.{arrived};
ghost use Rattle.mg_model.specs.Members.{is_among};

/// The ephemerals at which media has arrived.
#[derive(Drop)]
pub(crate) enum Trail<'a> {
    /// None.
    Start,
    /// One more.
    After(u32, &'a Trail<'a>),
}

impl<'a> Trail<'a> {
    /// Whether media has arrived at an ephemeral.
    pub(crate) fn has(&self, ephemeral: u32) -> bool
        ensures { result ≡ is_among (arrived self.now) ephemeral }
    {
        match self {
            Trail::Start => false,
            Trail::After(last, before) => ephemeral == *last || before.has(ephemeral),
        }
    }
}
