//! What the system answered where a file, a device or an address can't be had. It serves `--explain` alone,
//! and asks the system once more; no clause says more of it than that it ends.
use dns_configuration::{File, PrintedWord, ZoneSettings, apex, read_configuration, zone_of};
use dns_memory::Heap;
use mio::net::{TcpListener, UdpSocket};
use std::fs::{self, OpenOptions};
use std::io::{self, ErrorKind, Write};
use std::net::SocketAddr;
use std::os::unix::fs::OpenOptionsExt;
use std::slice;

/// Tells why the system does not give a file.
pub fn explain_unreadable<E: Write>(path: &str, reason: &io::Error, err: &mut E) -> io::Result<()> {
    writeln!(err, "{}: {reason}", PrintedWord(path.as_bytes()))
}

/// Tells that what is at a path is no file.
pub fn explain_other<E: Write>(path: &str, err: &mut E) -> io::Result<()> {
    let what = PrintedWord(path.as_bytes());
    writeln!(
        err,
        "{what}: a folder, a pipe, a socket or a device is there, and no file"
    )
}

/// Tells why the device of a zone can't be had. Answers whether it can't.
fn explain_device<E: Write>(rt: &HostRuntime, own: &ZoneSettings, err: &mut E) -> io::Result<bool> {
    let file = match OpenOptions::new()
        .read(true)
        .write(true)
        .open(rt, own.device.as_str())
    {
        Ok(file) => file,
        Err(reason) => {
            explain_unreadable(&own.device, &reason, err)?;
            return Ok(true);
        }
    };
    if let Ok(()) = file.try_lock() {
        return Ok(false);
    }
    let what = PrintedWord(own.device.as_bytes());
    writeln!(err, "{what}: another process holds it")?;
    Ok(true)
}

/// The zones of these that are meant: that of the name, or all if there is no name.
fn zones_meant<'z>(
    heap: Heap,
    zones: &'z [ZoneSettings],
    origin: Option<&str>,
) -> &'z [ZoneSettings] {
    let Some(origin) = origin else {
        return zones;
    };
    let Ok(name) = apex(heap, origin) else {
        return &[];
    };
    match zone_of(zones, &name) {
        Some(own) => slice::from_ref(own),
        None => &[],
    }
}

/// Tells why the first device of these zones that can't be had can't. Answers whether there is one.
fn explain_first<E: Write>(
    rt: &HostRuntime,
    zones: &[ZoneSettings],
    err: &mut E,
) -> io::Result<bool> {
    for own in zones {
        if explain_device(rt, own, err)? {
            return Ok(true);
        }
    }
    Ok(false)
}

/// Tells why the device of the configuration's zone of that name can't be had, or the first of all that can't
/// where none is named. Answers whether there is one.
pub fn explain_devices<E: Write>(
    rt: &HostRuntime,
    heap: Heap,
    config: &File<'_>,
    origin: Option<&str>,
    err: &mut E,
) -> io::Result<bool> {
    let Ok(configuration) = read_configuration(rt.alloc(), heap, config) else {
        return Ok(false);
    };
    explain_first(rt, zones_meant(heap, &configuration.zones, origin), err)
}

/// A file that only its owner reads and writes, as a device is.
const OWNER_ALONE: u32 = 0o600;

/// Tells why no file can be made at the path of a zone's device. Answers whether none can; one that can is
/// taken away again.
fn explain_unmade_device<E: Write>(
    rt: &HostRuntime,
    own: &ZoneSettings,
    err: &mut E,
) -> io::Result<bool> {
    let path = own.device.as_str();
    let mut how = OpenOptions::new();
    how.write(true).create_new(true);
    how.mode(OWNER_ALONE);
    match how.open(rt, path) {
        Ok(file) => {
            drop(file);
            fs::remove_file(rt, path)?;
            Ok(false)
        }
        Err(reason) => {
            explain_unreadable(path, &reason, err)?;
            Ok(true)
        }
    }
}

/// Tells why the devices of a configuration, or that of its zone of that name, could not be made: the first
/// path at which no file can be; or else what is left.
pub fn explain_unmade<E: Write>(
    rt: &HostRuntime,
    heap: Heap,
    config: &File<'_>,
    origin: Option<&str>,
    err: &mut E,
) -> io::Result<()> {
    let Ok(configuration) = read_configuration(rt.alloc(), heap, config) else {
        return Ok(());
    };
    for own in zones_meant(heap, &configuration.zones, origin) {
        if explain_unmade_device(rt, own, err)? {
            return Ok(());
        }
    }
    let what = PrintedWord(config.path.as_bytes());
    writeln!(
        err,
        "{what}: a file can be made for each device; the disk may be full, or the output was closed"
    )
}

/// Why nobody can listen on an address, if so.
fn refusal_of(rt: &HostRuntime, address: SocketAddr) -> io::Result<()> {
    let _listener = TcpListener::bind(rt, address)?;
    let _datagrams = UdpSocket::bind(rt, address)?;
    Ok(())
}

/// Tells why nobody can listen on an address.
fn tell_reason<E: Write>(err: &mut E, address: SocketAddr, reason: &io::Error) -> io::Result<()> {
    match reason.kind() {
        ErrorKind::AddrInUse => writeln!(err, "{address}: in use by another process"),
        ErrorKind::PermissionDenied => writeln!(err, "{address}: not permitted to this user"),
        ErrorKind::AddrNotAvailable => writeln!(err, "{address}: not of this machine"),
        _ => writeln!(err, "{address}: {reason}"),
    }
}

/// Tells why a server of a configuration can't have a device, or on which of its addresses it can't listen,
/// and why.
pub fn explain_unserved<E: Write>(
    rt: &HostRuntime,
    heap: Heap,
    config: &File<'_>,
    err: &mut E,
) -> io::Result<()> {
    if explain_devices(rt, heap, config, None, err)? {
        return Ok(());
    }
    let Ok(configuration) = read_configuration(rt.alloc(), heap, config) else {
        return Ok(());
    };
    for address in &configuration.listen {
        if let Err(reason) = refusal_of(rt, *address) {
            return tell_reason(err, *address, &reason);
        }
    }
    Ok(())
}
