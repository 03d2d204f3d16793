//! The form of the answer to a transfer.
ghost use Rattle.std.specs.Prelude.{◌≡◌, drop};
ghost use Rattle.std.specs.Option.{option_map};
ghost use Rattle.dns_records.specs.Record.{serial_of};
ghost use Rattle.dns_serial.specs.Serial.{advance};
ghost use Rattle.dns_transfer.specs.Form.{form_of, since};
ghost use Rattle.dns_transfer.specs.Left.{stated_form};

use dns_changes::Change;
use dns_serial::Serial;

/// What a transfer answers (RFC 1995 section 4, RFC 5936 section 2.2).
#[derive(Clone, Copy, Debug)]
pub enum Form {
    /// The SOA of the version that is shown, alone.
    Current,
    /// The changes from the one with that number on.
    Incremental(usize),
    /// The whole zone.
    Full,
}

/// The serial of the version before a change.
fn old_serial(change: &Change) -> u32
    ensures { result ≡ serial_of change.now.old_soa }
{
    let _removed = change.removed();
    change.old_soa().serial()
}

/// How far the serial goes with a change (RFC 1982 section 3.1).
fn advance_of(change: &Change) -> u32
    ensures { result ≡ advance (serial_of change.now.old_soa) (serial_of change.now.new_soa) }
{
    let _removed = change.removed();
    Serial::advance(
        Serial(change.old_soa().serial()),
        Serial(change.new_soa().serial()),
    )
}

/// The number of the change that leads on from the journalled version of a serial. It is looked for from the
/// newest change on, as far as the serial goes less than 2^31.
fn first_since(changes: &[Change], serial: u32) -> Option<usize>
    ensures { option_map (λ first. drop first changes.now) result ≡ since serial changes.now }
{
    let mut first = None;
    let mut gone: u64 = 0;
    let mut number = changes.len();
    'newest: while number > 0 {
        number -= 1;
        let change = &changes[number];
        gone += advance_of(change) as u64;
        if gone >= 1 << 31 {
            return first;
        }
        if old_serial(change) == serial {
            first = Some(number);
        }
    }
    first
}

/// The form for a client that has a serial, where the version that is shown has the current one and those
/// changes lead to it. An AXFR has no serial.
pub fn choose_form(current: u32, changes: &[Change], client: Option<u32>) -> Form
    ensures { stated_form changes.now result ≡ form_of current changes.now client }
{
    let Some(serial) = client else {
        return Form::Full;
    };
    if (current == serial) | Serial(serial).greater(Serial(current)) {
        return Form::Current;
    }
    if !Serial(current).greater(Serial(serial)) {
        return Form::Full;
    }
    match first_since(changes, serial) {
        Some(first) => Form::Incremental(first),
        None => Form::Full,
    }
}
