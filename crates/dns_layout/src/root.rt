//! The root of a store.
ghost use Rattle.std.specs.Prelude.{◌≡◌, ◌≢◌, ◌≤◌, ◌<◌, ◌^◌, ◌-◌, IfOk, IfErr, MatchOption, Ok};
ghost use Rattle.dns_layout.specs.Sector.{blank, clear_in, apex_field_in};
ghost use Rattle.dns_layout.specs.Forms.{SaysRoot, SaysRootIn, RootRefusedIn, root_front, bank_number};
ghost use Rattle.dns_layout.specs.Forms.{clear_number};
ghost use Rattle.dns_layout.specs.Own.{Own};

use crate::apex::Apex;
use crate::fields::{Numbers, put, u32_octets, u64_octets};
use crate::format::tag_of;
use crate::{Format, LayoutError};
use byteorder::{BigEndian, ByteOrder};
use dns_sectors::Sector;

/// One of a store's two banks, each of which has a snapshot and a journal.
#[derive(Clone, Copy, Debug, PartialEq, Eq)]
pub enum Bank {
    Zero,
    One,
}

impl Bank {
    /// 0 or 1.
    pub fn number(self) -> u32
        ensures { result ≡ bank_number self }
    {
        match self {
            Bank::Zero => 0,
            Bank::One => 1,
        }
    }

    /// The bank with this number; `None` where there is none.
    pub fn from_number(number: u32) -> Option<Bank>
        ensures { MatchOption result (2 ≤ number) (λ bank. number ≡ bank_number bank) }
    {
        match number {
            0 => Some(Bank::Zero),
            1 => Some(Bank::One),
            _ => None,
        }
    }
}

/// The root of a store: sector 0, which names the bank in use.
#[derive(Drop)]
pub struct Root {
    /// How often the store has been opened.
    pub open_count: u64,
    /// The number of the version whose snapshot the bank holds.
    pub base: u64,
    /// The bank in use.
    pub bank: Bank,
    /// The store's open count when the bank was written.
    pub bank_open: u64,
    /// How many octets the snapshot has.
    pub snapshot_length: u64,
    /// How many sectors a bank has for its snapshot.
    pub snapshot_room: u32,
    /// How many sectors a bank has for its journal.
    pub journal_room: u32,
    /// The bank that isn't in use holds nothing of format 1.
    pub is_clear: bool,
    /// The zone's name.
    pub apex: Apex,
}

impl Root {
    /// The sector of format 2 that says this.
    pub fn encode(&self) -> Sector
        ensures says { SaysRoot result self.now }
        ensures own { Own 0 result }
        ensures written { result ≢ blank }
    {
        let mut payload = [0; 480];
        let front = self.front();
        let field = self.apex.field();
        put(&mut payload, 0, &front);
        put(&mut payload, 25, &field[..455]);
        let numbers = Numbers {
            open_count: self.open_count,
            sequence: self.base,
            number: self.bank.number(),
        };
        numbers.encode(&tag_of(Format::Two, b'R'), &payload, 0)
    }

    // The payload's octets before the zone's name.
    fn front(&self) -> [u8; 25]
        ensures octets { result ≡ root_front self.now }
        ensures bank_fits { self.now.bank_open < 2 ^ 64 }
        ensures length_fits { self.now.snapshot_length < 2 ^ 64 }
        ensures snapshot_fits { self.now.snapshot_room < 2 ^ 32 }
        ensures journal_fits { self.now.journal_room < 2 ^ 32 }
    {
        let mut front = [0; 25];
        put(&mut front, 0, &u64_octets(self.bank_open));
        put(&mut front, 8, &u64_octets(self.snapshot_length));
        put(&mut front, 16, &u32_octets(self.snapshot_room));
        put(&mut front, 20, &u32_octets(self.journal_room));
        put(&mut front, 24, &[clear_octet(self.is_clear)]);
        front
    }

    /// What the sector says. `NotThisKind` where it has another tag, `BadField` where its bank or what it
    /// says of the other bank is above 1, or its last field is not a name in plain form, in lower case, with
    /// nothing but zeros after it.
    #[tactic(auto, unfolding(crate::specs::Sector::root_tag_in))]
    pub fn decode(format: Format, sector: &Sector) -> Result<Root, LayoutError>
        ensures says { IfOk result (SaysRootIn format sector.now) }
        ensures only { (root : Root) → SaysRootIn format sector.now root → result ≡ Ok root }
        ensures refused { IfErr result (RootRefusedIn format sector.now) }
    {
        let numbers = Numbers::decode(&tag_of(format, b'R'), sector)?;
        let Some(bank) = Bank::from_number(numbers.number) else {
            return Err(LayoutError::BadField);
        };
        let Some(is_clear) = read_clear(format, sector) else {
            return Err(LayoutError::BadField);
        };
        let Some(apex) = Apex::read(apex_field(format, sector)) else {
            return Err(LayoutError::BadField);
        };
        Ok(Root {
            open_count: numbers.open_count,
            base: numbers.sequence,
            bank,
            bank_open: BigEndian::read_u64(&sector[24..]),
            snapshot_length: BigEndian::read_u64(&sector[32..]),
            snapshot_room: BigEndian::read_u32(&sector[40..]),
            journal_room: BigEndian::read_u32(&sector[44..]),
            is_clear,
            apex,
        })
    }
}

// What a root says of the bank that isn't in use: 1 where it holds nothing of format 1.
fn clear_octet(is_clear: bool) -> u8
    ensures { result ≡ clear_number is_clear }
{
    if is_clear { 1 } else { 0 }
}

// Whether the bank that isn't in use holds nothing of format 1; `None` where the sector doesn't say it by 0
// or 1.
#[tactic(auto, unfolding(crate::specs::Sector::clear))]
fn read_clear(format: Format, sector: &Sector) -> Option<bool>
    ensures { MatchOption result (2 ≤ clear_in format sector.now)
        (λ is_clear. clear_in format sector.now ≡ clear_number is_clear) }
{
    match format {
        Format::One => Some(true),
        Format::Two => match sector[48] {
            0 => Some(false),
            1 => Some(true),
            _ => None,
        },
    }
}

// The zone's name and the zeros after it.
#[tactic(auto, unfolding(crate::specs::Sector::apex_field, crate::specs::Sector::old_apex_field))]
fn apex_field(format: Format, sector: &Sector) -> [u8; 464]
    ensures { result ≡ apex_field_in format sector.now }
{
    let mut field = [0; 464];
    match format {
        Format::One => field.copy_from_slice(&sector[48..]),
        Format::Two => put(&mut field, 0, &sector[49..504]),
    }
    field
}
