//! The system's errors as faults of a device.
ghost use Rattle.std.specs.Prelude.{◌≡◌};

use css_outside::{Failure, OutFault};
use std::alloc::{AllocError, AllocFailed};
use std::io;
use std::io::ErrorKind;

/// The system's numbers for want of file descriptors: of this process's, and of the machine's.
const NO_DESCRIPTOR: i32 = 24;

const NO_DESCRIPTOR_AT_ALL: i32 = 23;
/// The system's number for a family of addresses that this machine hasn't.
const NO_FAMILY: i32 = 97;

/// Whether the system lacks a file descriptor.
fn lacks_descriptor(error: &io::Error) -> bool {
    match error.raw_os_error() {
        Some(number) => number == NO_DESCRIPTOR || number == NO_DESCRIPTOR_AT_ALL,
        None => false,
    }
}

/// What an error says whose kind says nothing here.
fn failure_by_number(error: &io::Error) -> Failure {
    if error.raw_os_error() == Some(NO_FAMILY) {
        Failure::NotHere
    } else {
        Failure::Other
    }
}

/// What an error says. A host whose neighbours get no answer from it gives none in time.
fn failure_of(error: &io::Error) -> Failure {
    match error.kind() {
        ErrorKind::AddrInUse => Failure::InUse,
        ErrorKind::AddrNotAvailable => Failure::NotHere,
        ErrorKind::ConnectionRefused => Failure::Refused,
        ErrorKind::TimedOut | ErrorKind::HostUnreachable => Failure::TimedOut,
        ErrorKind::PermissionDenied => Failure::NoPermission,
        ErrorKind::StorageFull | ErrorKind::QuotaExceeded => Failure::NoRoom,
        _ => failure_by_number(error),
    }
}

/// An error of the system. Want of memory is no fault of the device; want of a file descriptor is told as that too.
pub fn fault_of(error: io::Error) -> OutFault {
    if error.kind() == ErrorKind::OutOfMemory || lacks_descriptor(&error) {
        OutFault::Memory
    } else {
        OutFault::Failed(failure_of(&error))
    }
}

/// Memory ran out.
pub fn no_memory(_error: AllocError) -> OutFault
    ensures { result ≡ OutFault.Memory }
{
    OutFault::Memory
}

/// Memory for one more item ran out.
pub fn no_room<T: Drop>(_error: AllocFailed<T>) -> OutFault
    ensures { result ≡ OutFault.Memory }
{
    OutFault::Memory
}

/// Whether a call would have to wait, or was cut short by a signal.
pub fn would_wait(kind: ErrorKind) -> bool {
    kind == ErrorKind::WouldBlock || kind == ErrorKind::TimedOut || kind == ErrorKind::Interrupted
}
