//! Devices in memory, by their paths, for tests. They keep a list of the calls on them.
ghost use Rattle.std.specs.Prelude.{◌≡◌, ◌∷◌, [], IfOk, MatchResult, None, Some};
ghost use Rattle.dns_configuration.specs.Calls.{HasCalled};
ghost use Rattle.dns_devices.specs.DeviceCalls.{Asked, Closed, Made, Opened, Removed};
ghost use Rattle.dns_devices.specs.MemoryDevices.{call_of, calls_of};

use crate::call_list::{CallList, Twin};
use crate::devices::{Devices, NewDevices};
use dns_memory::Heap;
use dns_sectors::{DeviceError, OpenDeviceError};
use std::alloc::AllocError;

/// A device that can be made, of sectors of zeros, and had twice.
pub trait NewTwin: Twin {
    /// One of so many sectors. Memory for it can be refused.
    fn blank(heap: Heap, len: usize) -> Result<Self, AllocError>;
}

/// A call, as the list of devices in memory has it.
#[derive(Drop)]
enum KeptCall<D> {
    Opened(String<Heap>, Result<D, OpenDeviceError>),
    Closed(String<Heap>, D),
    Asked(String<Heap>, Result<bool, DeviceError>),
    Made(String<Heap>, usize, Result<D, DeviceError>),
    Removed(String<Heap>),
}

/// A path, and the device at it; none while it is open.
#[derive(Drop)]
struct Entry<D> {
    path: String<Heap>,
    device: Option<D>,
}

/// Devices in memory. They keep a list of the calls, each with a twin of the device that it was given or
/// answered, up to one for which memory is refused.
#[derive(Drop)]
pub struct MemoryDevices<D> {
    heap: Heap,
    entries: Vec<Entry<D>, Heap>,
    calls: CallList<KeptCall<D>, Heap>,
}

/// An answer again, with a twin of the device in it.
fn answer_again<D: Twin, E: Copy>(
    heap: Heap,
    answer: &Result<D, E>,
) -> Result<Result<D, E>, AllocError>
    ensures { IfOk result (λ again. again ≡ answer.now) }
{
    match answer {
        Ok(device) => Ok(Ok(device.twin(heap)?)),
        Err(error) => Ok(Err(*error)),
    }
}

/// The call that opened a device at a path.
fn opened<D: Twin>(
    heap: Heap,
    path: &str,
    answer: &Result<D, OpenDeviceError>,
) -> Result<KeptCall<D>, AllocError>
    ensures { IfOk result (λ call. call_of call ≡ Opened path.now answer.now) }
{
    let path = String::from_str(heap, path)?;
    Ok(KeptCall::Opened(path, answer_again(heap, answer)?))
}

/// The call that made a device at a path.
fn made<D: Twin>(
    heap: Heap,
    path: &str,
    len: usize,
    answer: &Result<D, DeviceError>,
) -> Result<KeptCall<D>, AllocError>
    ensures { IfOk result (λ call. call_of call ≡ Made path.now len answer.now) }
{
    let path = String::from_str(heap, path)?;
    Ok(KeptCall::Made(path, len, answer_again(heap, answer)?))
}

/// The call that closed a device at a path.
fn closed<D: Twin>(heap: Heap, path: &str, device: &D) -> Result<KeptCall<D>, AllocError>
    ensures { IfOk result (λ call. call_of call ≡ Closed path.now device.now) }
{
    let path = String::from_str(heap, path)?;
    Ok(KeptCall::Closed(path, device.twin(heap)?))
}

/// The call that asked what is at a path.
fn asked<D>(heap: Heap, path: &str, is_there: bool) -> Result<KeptCall<D>, AllocError>
    ensures { IfOk result (λ call. call_of call ≡ Asked path.now (Ok is_there)) }
{
    let path = String::from_str(heap, path)?;
    Ok(KeptCall::Asked(path, Ok(is_there)))
}

/// The call that removed what is at a path.
fn removed<D>(heap: Heap, path: &str) -> Result<KeptCall<D>, AllocError>
    ensures { IfOk result (λ call. call_of call ≡ Removed path.now) }
{
    Ok(KeptCall::Removed(String::from_str(heap, path)?))
}

impl<D: Twin> MemoryDevices<D> {
    /// None at any path.
    pub fn new(heap: Heap) -> MemoryDevices<D>
        ensures { calls_of result ≡ Some [] }
    {
        MemoryDevices {
            heap,
            entries: Vec::new(heap),
            calls: CallList::new(heap),
        }
    }

    /// Puts a device at a path, if there is none.
    pub fn put(&mut self, path: &str, device: D) -> Result<bool, AllocError>
        ensures { calls_of self.new ≡ calls_of self.old }
    {
        self.add(path, Some(device))
    }

    /// Whether the list of calls was lost.
    pub fn is_lost(&self) -> bool {
        self.calls.calls().is_none()
    }

    /// The index of a path, if there is anything at it.
    fn index_of(&self, path: &str) -> Option<usize> {
        for index in 0..self.entries.len() {
            if self.entries[index].path.as_str() == path {
                return Some(index);
            }
        }
        None
    }

    /// Adds a path, if it isn't there.
    fn add(&mut self, path: &str, device: Option<D>) -> Result<bool, AllocError>
        ensures { calls_of self.new ≡ calls_of self.old }
    {
        if self.index_of(path).is_some() {
            return Ok(false);
        }
        let path = String::from_str(self.heap, path)?;
        self.entries.push(Entry { path, device })?;
        Ok(true)
    }

    /// Takes the device at a path, unless it is open.
    fn take(&mut self, path: &str) -> Option<D>
        ensures { calls_of self.new ≡ calls_of self.old }
    {
        let index = self.index_of(path)?;
        self.entries.get_mut(index)?.device.take()
    }

    /// Puts a device back at its path, if that is there still.
    fn put_back(&mut self, path: &str, device: D)
        ensures { calls_of self.new ≡ calls_of self.old }
    {
        if let Some(index) = self.index_of(path) {
            if let Some(entry) = self.entries.get_mut(index) {
                entry.device = Some(device);
            }
        }
    }

    /// Adds a call to the list, or loses it if memory for the call was refused.
    fn note(&mut self, call: Result<KeptCall<D>, AllocError>)
        ensures { MatchResult call
            (λ call. HasCalled (calls_of self.old) (calls_of self.new) (call_of call ∷ []))
            (λ _. calls_of self.new ≡ None) }
    {
        match call {
            Ok(call) => self.calls.add(call),
            Err(_) => self.calls.lose(),
        }
    }

    /// Puts a device back at its path, and notes that it was closed.
    fn take_back(&mut self, path: &str, device: D)
        ensures { HasCalled (calls_of self.old) (calls_of self.new) (Closed path.now device ∷ []) }
    {
        let call = closed(self.heap, path, &device);
        self.note(call);
        self.put_back(path, device);
    }
}

impl<D: NewTwin> MemoryDevices<D> {
    /// A new device at a path where there is nothing.
    fn make_at(&mut self, path: &str, len: usize) -> Result<D, DeviceError>
        ensures { calls_of self.new ≡ calls_of self.old }
    {
        let Ok(device) = D::blank(self.heap, len) else {
            return Err(DeviceError::Device);
        };
        match self.add(path, None) {
            Ok(true) => Ok(device),
            _ => Err(DeviceError::Device),
        }
    }
}

impl<D: Twin> Devices<D> for MemoryDevices<D> {
    ghost calls = { calls_of };

    fn open(&mut self, path: &str) -> Result<D, OpenDeviceError> {
        let answer = self.take(path).ok_or(OpenDeviceError::Device);
        let call = opened(self.heap, path, &answer);
        self.note(call);
        answer
    }

    fn close(&mut self, path: &str, device: D) {
        self.take_back(path, device);
    }
}

impl<D: NewTwin> NewDevices<D> for MemoryDevices<D> {
    ghost calls = { calls_of };

    fn has(&mut self, path: &str) -> Result<bool, DeviceError> {
        let is_there = self.index_of(path).is_some();
        let call = asked(self.heap, path, is_there);
        self.note(call);
        Ok(is_there)
    }

    fn make(&mut self, path: &str, len: usize) -> Result<D, DeviceError> {
        let answer = self.make_at(path, len);
        let call = made(self.heap, path, len, &answer);
        self.note(call);
        answer
    }

    fn close(&mut self, path: &str, device: D) {
        self.take_back(path, device);
    }

    fn remove(&mut self, path: &str) {
        let call = removed(self.heap, path);
        self.note(call);
        if let Some(index) = self.index_of(path) {
            if index < self.entries.len() {
                self.entries.remove(index);
            }
        }
    }
}

#[cfg(test)]
mod tests {
    use super::*;
    use dns_memory::heap;
    use std::test::Fail;

    /// A device that has nothing but a number of sectors.
    #[derive(Clone, Copy)]
    struct Bare(usize);

    impl Twin for Bare {
        fn twin(&self, _heap: Heap) -> Result<Bare, AllocError> {
            Ok(*self)
        }
    }

    impl NewTwin for Bare {
        fn blank(_heap: Heap, len: usize) -> Result<Bare, AllocError> {
            Ok(Bare(len))
        }
    }

    #[test]
    fn a_device_is_made_closed_opened_and_removed(rt: HostRuntime) -> Result<(), Fail> {
        let heap = heap(rt.alloc())?;
        let mut devices: MemoryDevices<Bare> = MemoryDevices::new(heap);
        let made = devices.make("a", 3).ok().ok_or("none is made")?;
        assert!(rt; devices.make("a", 4).is_err());
        assert!(rt; devices.open("a").is_err());
        NewDevices::close(&mut devices, "a", made);
        let opened = devices.open("a").ok().ok_or("none is opened")?;
        assert_eq!(rt; opened.0, 3);
        Devices::close(&mut devices, "a", opened);
        devices.remove("a");
        assert_eq!(rt; devices.has("a").ok(), Some(false));
        assert!(rt; !devices.is_lost());
        Ok(())
    }

    #[test]
    fn a_list_of_calls_is_lost_if_memory_for_one_is_refused(rt: HostRuntime) -> Result<(), Fail> {
        let heap = heap(rt.alloc())?;
        let mut devices: MemoryDevices<Bare> = MemoryDevices::new(heap);
        assert!(rt; devices.put("a", Bare(2))?);
        heap.refuse(1);
        let opened = devices.open("a").ok().ok_or("none is opened")?;
        heap.refuse(0);
        Devices::close(&mut devices, "a", opened);
        assert!(rt; devices.is_lost());
        Ok(())
    }
}
