/// The number of a line of the gateway, a physical termination that always exists (H.248.1 section 6.2).
#[derive(Clone, Copy, PartialEq, Eq)]
pub struct LineNo(pub u32);

/// The number of a call. This profile's own.
#[derive(Clone, Copy, PartialEq, Eq)]
pub struct CallNo(pub u32);

/// A ContextID (H.248.1 section 8.1.2 and Annex A).
#[derive(Clone, Copy, PartialEq, Eq)]
pub struct ContextId(pub u32);

impl ContextId {
    /// The null context, written `-`.
    pub const NULL: ContextId = ContextId(0);
    /// Asks the gateway to choose a new context, written `$`.
    pub const CHOOSE: ContextId = ContextId(0xFFFF_FFFE);
    /// All contexts, written `*`.
    pub const ALL: ContextId = ContextId(0xFFFF_FFFF);
}

/// A TerminationID (H.248.1 section 6.2.2): a physical line, or an ephemeral termination by its number.
#[derive(Clone, Copy)]
pub enum TermId {
    /// A physical termination.
    Line(LineNo),
    /// A termination that Add created and Subtract destroys.
    Eph(u32),
}

/// The number of an association between the gateway and its controller, from 1; each restart opens the next
/// (H.248.1 section 11.2 on ServiceChange; the numbers are this profile's own).
#[derive(Clone, Copy, PartialEq, Eq)]
pub struct Assoc(pub u64);

impl Assoc {
    /// The first association.
    pub const FIRST: Assoc = Assoc(1);
}

/// The greatest number of a transaction and of a note. This profile's own.
pub const LAST_NUMBER: u32 = u32::MAX;

/// The RequestID of the Events descriptor with which a line is opened, which no transaction carries. This profile's own.
pub const OPENING_REQUEST: u32 = 0;
