//! Devices in memory, in files in memory, and in files of the system. That a call succeeds no contract says,
//! and neither which one fails.
use dns_memory::{Heap, heap};
use dns_sectors::{FileSectors, MemoryFile, MemorySectors, OpenDeviceError, Plan, Sectors};
use std::alloc::AllocError;
use std::fs::{self, Files};
use std::rc::Rc;
use std::test::Fail;

/// The octet that a sector is full of.
fn full_of(sector: &[u8]) -> Option<u8> {
    let octet = *sector.first()?;
    if sector == [octet; 512].as_slice() {
        Some(octet)
    } else {
        None
    }
}

/// Writes a sector that is full of one octet, and says whether that succeeded.
fn write<D: Sectors>(device: &mut D, at: usize, octet: u8) -> bool {
    at < device.len() && device.write(at, &[octet; 512]).is_ok()
}

/// The octet that a sector is full of; none where the read fails.
fn read<D: Sectors>(device: &mut D, at: usize) -> Option<u8> {
    if at >= device.len() {
        return None;
    }
    match device.read(at) {
        Ok(sector) => full_of(&sector),
        Err(_) => None,
    }
}

/// Whether a device has a sector that it fails to read.
fn fails_to_read<D: Sectors>(device: &mut D, at: usize) -> bool {
    at < device.len() && device.read(at).is_err()
}

/// The octets that the sectors of a device with so many are full of.
fn contents<D: Sectors, const N: usize>(device: &mut D) -> Option<[u8; N]> {
    if device.len() != N {
        return None;
    }
    let mut octets = [0; N];
    for (at, octet) in octets.iter_mut().enumerate() {
        *octet = read(device, at)?;
    }
    Some(octets)
}

/// How many sectors a device of so many has whose n-th allocation is refused; none where there is no device.
fn made_without(alloc: Heap, n: u64, len: usize) -> Result<Option<usize>, AllocError> {
    let plan = Rc::new(alloc, Plan::new())?;
    alloc.refuse(n);
    let made = MemorySectors::new(alloc, len, 4, plan);
    alloc.refuse(0);
    match made {
        Ok(device) => Ok(Some(device.len())),
        Err(_) => Ok(None),
    }
}

#[test]
fn refused_memory(rt: HostRuntime) -> Result<(), Fail> {
    let alloc = heap(rt.alloc())?;
    for n in 1..7u64 {
        let wanted = if n == 6 { Some(2) } else { None };
        assert_eq!(rt; made_without(alloc, n, 2), Ok(wanted), "allocation {n}");
    }
    assert_eq!(rt; made_without(alloc, 0, 0), Ok(Some(0)));
    Ok(())
}

/// A device over a file in memory that was a device of three zero sectors, of which this call fails and this
/// one falls short.
fn device_of_three(alloc: Heap, fails: u64, short: u64) -> Option<FileSectors<MemoryFile>> {
    let file = MemoryFile::new(alloc, 32).ok()?;
    let mut file = FileSectors::zeroed(file, 3).ok()?.into_file();
    file.fail_at(fails);
    file.short_at(short);
    FileSectors::over(file).ok()
}

/// What the three sectors of a file are full of.
fn held(file: &MemoryFile) -> Option<[u8; 3]> {
    let mut held = [0; 3];
    for (octet, sector) in held.iter_mut().zip(file.octets().chunks(512)) {
        *octet = full_of(sector)?;
    }
    Some(held)
}

/// The run of a test: a write, a read, a sync, a write and a read, and which of them succeed.
fn run<D: Sectors>(device: &mut D) -> [bool; 5] {
    [
        write(device, 1, 5),
        read(device, 2) == Some(0),
        device.sync().is_ok(),
        write(device, 2, 6),
        read(device, 0) == Some(0),
    ]
}

/// What the run gives over a file of which this call fails and this one falls short: what succeeds, how often
/// a call of the device failed, and what the file holds.
fn run_over(alloc: Heap, fails: u64, short: u64) -> Option<([bool; 5], u64, [u8; 3])> {
    let mut device = device_of_three(alloc, fails, short)?;
    let done = run(&mut device);
    let failures = device.failures();
    Some((done, failures, held(&device.into_file())?))
}

/// A sync moves no octets, so that it does not fall short.
#[test]
fn each_call_fails_or_falls_short(rt: HostRuntime) -> Result<(), Fail> {
    let alloc = heap(rt.alloc())?;
    for n in 0..7u64 {
        for (fails, short) in [(n, 0), (0, n)] {
            let done = [n != 1, n != 2, n != 3 || fails == 0, n != 4, n != 5];
            let failures = u64::from(done.contains(&false));
            let holds = [0, if n == 1 { 0 } else { 5 }, if n == 4 { 0 } else { 6 }];
            assert_eq!(rt;
                run_over(alloc, fails, short),
                Some((done, failures, holds)),
                "call {n}"
            );
        }
    }
    Ok(())
}

/// How many sectors a device of two has where this call of its file fails; none where there is no device.
fn zeroed(alloc: Heap, fails: u64) -> Option<Option<usize>> {
    let mut file = MemoryFile::new(alloc, 8).ok()?;
    file.fail_at(fails);
    match FileSectors::zeroed(file, 2) {
        Ok(device) => Some(Some(device.len())),
        Err(_) => Some(None),
    }
}

#[test]
fn each_call_of_making_fails(rt: HostRuntime) -> Result<(), Fail> {
    let alloc = heap(rt.alloc())?;
    for n in 0..5u64 {
        let wanted = if n == 0 || n == 4 { Some(2) } else { None };
        assert_eq!(rt; zeroed(alloc, n), Some(wanted), "call {n}");
    }
    Ok(())
}

/// Of a device that is made: how many sectors it has, whether its last is written and made durable, what its
/// second holds, and whether it is locked for as long as it is open.
fn made<R: Files<File = fs::File>>(files: &R) -> Option<(usize, [bool; 2], Option<u8>, bool)> {
    let mut device = FileSectors::make(files, "device", 3).ok()?;
    let is_written = write(&mut device, 2, 9);
    let is_durable = device.sync().is_ok();
    let is_locked = FileSectors::open(files, "device").is_err();
    Some((
        device.len(),
        [is_written, is_durable],
        read(&mut device, 1),
        is_locked,
    ))
}

/// What that device holds when it is opened again, and how often it failed.
fn opened<R: Files<File = fs::File>>(files: &R) -> Option<(Option<[u8; 3]>, u64)> {
    let mut device = FileSectors::open(files, "device").ok()?;
    Some((contents(&mut device), device.failures()))
}

#[test]
fn made_and_opened(rt: HostRuntime) -> Result<(), Fail> {
    assert_eq!(rt; made(&rt), Some((3, [true, true], Some(0), true)));
    assert!(rt; FileSectors::make(&rt, "device", 3).is_err());
    assert_eq!(rt; opened(&rt), Some((Some([0, 0, 9]), 0)));
    Ok(())
}

/// Why the file at this path is no device.
fn refused<R: Files<File = fs::File>>(files: &R, path: &str) -> Option<OpenDeviceError> {
    FileSectors::open(files, path).err()
}

/// What a device of two sectors holds; whether its file is cut while it is open; what its first sector then
/// holds, whether it fails to read the second, and how often it failed.
fn cut<R: Files<File = fs::File>>(
    files: &R,
) -> Option<(Option<[u8; 2]>, bool, (Option<u8>, bool, u64))> {
    let mut device = FileSectors::open(files, "even").ok()?;
    let whole = contents(&mut device);
    let is_cut = fs::write(files, "even", [1u8; 600]).is_ok();
    let first = read(&mut device, 0);
    let fails = fails_to_read(&mut device, 1);
    Some((whole, is_cut, (first, fails, device.failures())))
}

#[test]
fn files_that_others_made(rt: HostRuntime) -> Result<(), Fail> {
    assert!(rt; fs::write(&rt, "odd", [1u8; 513]).is_ok());
    assert_eq!(rt; refused(&rt, "odd"), Some(OpenDeviceError::Geometry));
    assert_eq!(rt; refused(&rt, "none"), Some(OpenDeviceError::Device));
    assert!(rt; fs::write(&rt, "even", [1u8; 1024]).is_ok());
    assert_eq!(rt; cut(&rt), Some((Some([1, 1]), true, (Some(1), true, 1))));
    Ok(())
}
