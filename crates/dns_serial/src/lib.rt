//! Serial numbers of zones, on a circle of 2^32 (RFC 1982).
#![tactic(auto)]

ghost use Rattle.std.specs.Prelude.{◌≡◌, ◌+◌, ◌%◌, ◌^◌, ◌<◌, ◌≤◌, ◌↔◌, IsTrue, false};
ghost use Rattle.dns_serial.specs.Serial.{advance, distance, greater, next_serial, IsGreater};

/// The serial number of a version of a zone: 0 comes after 4294967295 (RFC 1982 section 3).
#[derive(Clone, Copy, Debug, PartialEq, Eq)]
pub struct Serial(pub u32);

impl Serial {
    /// How far it is from the one serial on to the other: what has to be added to the first to give the
    /// second, modulo 2^32 (RFC 1982 section 3.1).
    pub fn advance(from: Serial, to: Serial) -> u32
        ensures value { result ≡ advance from.0 to.0 }
        ensures reaches { (from.0 + result) % 2 ^ 32 ≡ to.0 }
    {
        to.0.wrapping_sub(from.0)
    }

    /// The lesser of the two advances between the serials, at most 2^31.
    pub fn distance(self, other: Serial) -> u32
        ensures value { result ≡ distance self.0 other.0 }
        ensures half { result ≤ 2 ^ 31 }
    {
        Serial::advance(self, other).min(Serial::advance(other, self))
    }

    /// Whether the serial is greater than the other (RFC 1982 section 3.2): it is ahead of it by 1 to
    /// 2^31 - 1. Where the serials are 2^31 apart neither is greater.
    pub fn greater(self, than: Serial) -> bool
        ensures value { result ≡ greater self.0 than.0 }
        // In the standard's own words.
        ensures standard { IsTrue result ↔ IsGreater self.0 than.0 }
        ensures irreflexive { self.0 ≡ than.0 → result ≡ false }
        ensures asymmetric { IsTrue result → greater than.0 self.0 ≡ false }
        ensures undefined { distance self.0 than.0 ≡ 2 ^ 31 → result ≡ false }
    {
        let ahead = Serial::advance(than, self);
        0 < ahead && ahead < 1 << 31
    }

    /// The serial after this one: an advance of 1.
    pub fn next(self) -> Serial
        ensures { result.0 ≡ next_serial self.0 }
    {
        Serial(self.0.wrapping_add(1))
    }
}
