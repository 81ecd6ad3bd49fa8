//! What is wrong with an index text or with a load of it.

ghost use Rattle.std.specs.Prelude.{◌≡◌};
ghost use Rattle.encoding_index.specs.declared.fault.LoadFault.TheVariants.{Text, Table};

use encoding_tables::TableFault;
use std::alloc::{AllocError, AllocFailed};
use thiserror::Error;

/// What is wrong with a line of an index text, or that memory was refused. Of several faults in one
/// line the first is named, in the order of the variants.
#[derive(Clone, Copy, Debug, PartialEq, Eq, Error)]
pub enum IndexFaultKind {
    /// The line is neither a row nor one that is skipped.
    #[error("the line is no row")]
    Row,
    /// The pointer is not above that of the row before.
    #[error("the pointer is not above that of the row before")]
    Order,
    /// The index has no such pointer: it is not below the size of the kind, or it is a pointer of the
    /// ranges above 1237575.
    #[error("the index has no such pointer")]
    Pointer,
    /// There was no memory for the list, or for one more row.
    #[error("out of memory")]
    Memory,
}

/// Why an index text was not read: the first line with a fault, and its fault.
#[derive(Debug, Drop, PartialEq, Eq, Error)]
#[error("line {line}: {kind}")]
pub struct IndexFault {
    /// The line, counted from 1, skipped lines too; 0 if memory was refused.
    pub line: usize,
    /// What is wrong.
    pub kind: IndexFaultKind,
}

impl From<AllocError> for IndexFault {
    ghost use Rattle.encoding_index.specs.IndexText.{memory_fault};

    ghost from_gives = { λ _ fault. fault ≡ memory_fault };

    fn from(_refused: AllocError) -> IndexFault {
        IndexFault {
            line: 0,
            kind: IndexFaultKind::Memory,
        }
    }
}

impl<T: Drop> From<AllocFailed<T>> for IndexFault {
    ghost use Rattle.encoding_index.specs.IndexText.{memory_fault};

    ghost from_gives = { λ _ fault. fault ≡ memory_fault };

    fn from(_refused: AllocFailed<T>) -> IndexFault {
        IndexFault::from(AllocError)
    }
}

/// Why an index text was not loaded. The tables are as they were.
#[derive(Debug, Drop, PartialEq, Eq, Error)]
pub enum LoadFault {
    /// The text was not read.
    #[error("{0}")]
    Text(IndexFault),
    /// The text was read, but the tables do not take the list or the rows that it stands for.
    #[error("{0}")]
    Table(TableFault),
}

impl From<IndexFault> for LoadFault {
    ghost from_gives = { λ fault load_fault. load_fault ≡ Text fault };

    fn from(fault: IndexFault) -> LoadFault {
        LoadFault::Text(fault)
    }
}

impl From<TableFault> for LoadFault {
    ghost from_gives = { λ fault load_fault. load_fault ≡ Table fault };

    fn from(fault: TableFault) -> LoadFault {
        LoadFault::Table(fault)
    }
}
