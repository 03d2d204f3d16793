//! A list of calls in memory.
ghost use Rattle.std.specs.Prelude.{◌≡◌, ◌∷◌, [], IfOk, None, Some};
ghost use Rattle.dns_configuration.specs.Calls.{HasCalled};
ghost use Rattle.dns_devices.specs.CallList.{calls_in};

use dns_memory::Heap;
use std::alloc::{AllocError, Allocator};

/// What can be had twice, the second equal to the first.
pub trait Twin: Drop {
    /// The second. Memory for it can be refused.
    fn twin(&self, heap: Heap) -> Result<Self, AllocError>
        ensures { IfOk result (λ twin. twin ≡ self.now) };
}

/// The calls that were made on what is in memory. If memory for one is refused the list is lost, for good.
#[derive(Drop)]
pub struct CallList<C, A: Allocator> {
    calls: Option<Vec<C, A>>,
}

impl<C: Drop, A: Allocator + Drop> CallList<C, A> {
    /// No call.
    pub fn new(alloc: A) -> CallList<C, A>
        ensures { calls_in result ≡ Some [] }
    {
        CallList {
            calls: Some(Vec::new(alloc)),
        }
    }

    /// Adds a call at the end.
    pub fn add(&mut self, call: C)
        ensures { HasCalled (calls_in self.old) (calls_in self.new) (call ∷ []) }
    {
        if let Some(calls) = &mut self.calls {
            if calls.push(call).is_err() {
                self.calls = None;
            }
        }
    }

    /// Loses the list.
    pub fn lose(&mut self)
        ensures { calls_in self.new ≡ None }
    {
        self.calls = None;
    }

    /// The calls, unless the list was lost.
    pub fn calls(&self) -> Option<&[C]> {
        Some(self.calls.as_ref()?.as_slice())
    }
}
