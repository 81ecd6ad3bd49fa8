//! What a call of a converter reports beside its status.

/// What a call of a converter did.
#[repr(C)]
#[derive(Clone, Copy)]
pub struct ConverterProgress {
    /// Bytes of `src` read.
    pub read: usize,
    /// Bytes written to `dst`.
    pub written: usize,
    /// Records written to `losses`.
    pub losses: usize,
    /// Whether bytes or a record are left that did not fit. The next call writes them first.
    pub wants_room: bool,
}

impl ConverterProgress {
    /// Nothing was done.
    pub(crate) const NONE: ConverterProgress = ConverterProgress {
        read: 0,
        written: 0,
        losses: 0,
        wants_room: false,
    };
}
