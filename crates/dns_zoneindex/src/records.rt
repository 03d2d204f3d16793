//! The records that one name owns, shared by all trees in which they are the same. Most names have one
//! record, which is stored in their node.
ghost use Rattle.std.specs.Prelude.{◌≡◌, IfOk};
ghost use Rattle.dns_zoneindex.specs.Held.{held};

use dns_memory::Heap;
use dns_records::Record;
use std::alloc::AllocError;
use std::rc::Rc;
use std::slice;

/// The records of one name.
#[derive(Drop)]
pub(crate) enum Records {
    /// None: names are below it.
    Empty,
    /// One.
    One(Record),
    /// More than one.
    Many(Rc<Vec<Record, Heap>, Heap>),
}

impl Records {
    /// Those of a list.
    pub(crate) fn of(alloc: Heap, records: Vec<Record, Heap>) -> Result<Records, AllocError>
        ensures { IfOk result (λ made. held made ≡ records.entry.items) }
    {
        if records.len() > 1 {
            return Ok(Records::Many(Rc::new(alloc, records)?));
        }
        let mut records = records;
        match records.pop() {
            None => Ok(Records::Empty),
            Some(record) => Ok(Records::One(record)),
        }
    }

    /// The records in a row.
    #[inline(always)]
    pub(crate) fn as_slice(&self) -> &[Record]
        ensures { result.now ≡ held self.now }
    {
        match self {
            Records::Empty => &[],
            Records::One(record) => slice::from_ref(record),
            Records::Many(records) => records.as_slice(),
        }
    }

    /// The same records, to be shared: no list is copied.
    pub(crate) fn share(&self) -> Result<Records, AllocError>
        ensures { IfOk result (λ shared. held shared ≡ held self.now) }
    {
        match self {
            Records::Empty => Ok(Records::Empty),
            Records::One(record) => Ok(Records::One(record.clone()?)),
            Records::Many(records) => Ok(Records::Many(records.clone()?)),
        }
    }
}
