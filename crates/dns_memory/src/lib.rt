//! The memory of every collection: an allocator that counts the calls of `allocate`, and refuses one of them
//! when a test asks for it.
#![tactic(auto)]

use std::alloc::{AllocError, Allocator, Global};
use std::cell::Cell;

/// An allocator that counts. Lend it: a `&Meter` is an allocator, and is `Copy`.
pub struct Meter<B: Allocator> {
    inner: B,
    // How many calls of `allocate` are still to come, up to the one that is refused, which is counted.
    left: Cell<u64>,
}

impl<B: Allocator> Meter<B> {
    /// Counts the calls of another allocator, and refuses none.
    pub fn new(inner: B) -> Meter<B> {
        Meter {
            inner,
            left: Cell::new(0),
        }
    }

    /// From now on the call number `n` is refused, the first being 1; 0 refuses none that comes.
    pub fn refuse(&self, n: u64) {
        self.left.set(n);
    }

    /// How many calls came since `refuse(0)`.
    pub fn calls(&self) -> u64 {
        0u64.wrapping_sub(self.left.get())
    }
}

impl<B: Allocator> Drop for Meter<B> {
    fn drop(self) {
        let Self { inner: _, left: _ } = self;
    }
}

/// The handle of every collection: `Copy`, of a known size, with no lifetime of its own and no type
/// parameter.
pub type Heap = &'static Meter<Global>;

/// The handle over the memory of the machine. It is made once, and never freed.
pub fn heap(alloc: Global) -> Result<Heap, AllocError> {
    Ok(Box::leak(Box::new(alloc, Meter::new(alloc))?))
}

// Counts a call, and says whether it is the one that is refused.
fn tick(left: &Cell<u64>) -> bool {
    let now = left.get().wrapping_sub(1);
    left.set(now);
    now == 0
}

unsafe impl<B: Allocator> Allocator for Meter<B> {
    ghost dealloc_token = { λ heap ty ptr. B.dealloc_token heap.inner ty ptr };

    fn allocate(&self, size: usize, align: usize) -> Result<*mut u8, AllocError> {
        if tick(&self.left) {
            return Err(AllocError);
        }
        self.inner.allocate(size, align)
    }

    unsafe fn deallocate(&self, ptr: *mut u8, size: usize, align: usize) {
        self.inner.deallocate(ptr, size, align);
    }
}
