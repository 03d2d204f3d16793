//! The configuration: the zones that are held, their files, and who may change and copy them.
ghost use Rattle.std.specs.Prelude.{◌≡◌, ◌≢◌, ℕ, ◌<◌, ◌^◌, [], Ok, Some, MatchOption, IfOk};
ghost use Rattle.std.specs.Prelude.{map, option_map, pos};
ghost use Rattle.std.specs.List.{list_any};
ghost use Rattle.std.specs.Option.{option_copied};
ghost use Rattle.toml.specs.View.{array_view, view};
ghost use Rattle.dns_names.specs.Text.{name_of_text};
ghost use Rattle.dns_configuration.specs.declared.configuration.ConfigurationError.TheVariants as told;
ghost use Rattle.dns_configuration.specs.Settings.{ArePrefixes, AreSettings, Describes, HasCount};
ghost use Rattle.dns_configuration.specs.Settings.{HasName, HasPath, HasPrefixes, IsConfiguration};
ghost use Rattle.dns_configuration.specs.Settings.{IsDescribedBy, IsSettings, ReadsOrFails, are_alike};
ghost use Rattle.dns_configuration.specs.Settings.{has_keys, list_at, number_at, text_at};

use crate::listening::addresses_at;
use crate::paths::is_same_path;
use dns_memory::Heap;
use dns_names::{Name, NameError};
use dns_policy::Prefix;
use std::alloc::{AllocError, AllocFailed, Global};
use std::net::SocketAddr;
use toml::Value;

/// At most so many zones are held.
pub(crate) const MOST_ZONES: usize = 16;

/// The least count of sectors of a snapshot.
pub(crate) const LEAST_SNAPSHOT: u32 = 1;

/// The least count of sectors of a journal.
pub(crate) const LEAST_JOURNAL: u32 = 8;

/// The largest count of sectors or versions.
pub(crate) const MOST: u32 = 65536;

/// How many keys the table of a zone has.
pub(crate) const ZONE_KEYS: usize = 8;

/// One zone of a configuration.
#[derive(Drop)]
pub struct ZoneSettings {
    /// The apex.
    pub origin: Name,
    /// The path of the master file.
    pub file: String,
    /// The path of the device that keeps the zone.
    pub device: String,
    /// How many sectors a snapshot has, 1 to 65,536.
    pub snapshot_sectors: u32,
    /// How many sectors a journal has, 8 to 65,536.
    pub journal_sectors: u32,
    /// How many changes a checkpoint keeps at most, 0 to 65,536.
    pub keep: u32,
    /// Who may update the zone (RFC 2136).
    pub update: Vec<Prefix>,
    /// Who may copy the zone (RFC 5936, RFC 1995).
    pub transfer: Vec<Prefix>,
}

/// What a server holds, and where it listens.
#[derive(Drop)]
pub struct Configuration {
    /// 1 to 8 addresses with their ports, each by UDP and TCP.
    pub listen: Vec<SocketAddr>,
    /// At most 16 zones, with distinct apexes and devices.
    pub zones: Vec<ZoneSettings>,
}

/// Why there is no configuration.
#[derive(Clone, Copy, Debug, PartialEq, Eq)]
pub enum ConfigurationError {
    /// Memory was refused.
    OutOfMemory,
    /// The text is no TOML, a key is missing or not known, or a value is none of its key.
    BadConfig,
}

impl From<AllocError> for ConfigurationError {
    ghost from_gives = { λ _ e. e ≡ told.OutOfMemory };

    fn from(_error: AllocError) -> ConfigurationError {
        ConfigurationError::OutOfMemory
    }
}

impl<T: Drop> From<AllocFailed<T>> for ConfigurationError {
    ghost from_gives = { λ _ e. e ≡ told.OutOfMemory };

    fn from(_error: AllocFailed<T>) -> ConfigurationError {
        ConfigurationError::OutOfMemory
    }
}

/// The text at a key of a table.
pub(crate) fn text_at<'a>(table: &'a Value, key: &str) -> Option<&'a str>
    ensures { option_copied result ≡ text_at key.now (view table.now) }
{
    match table.get(key) {
        Some(value) => value.as_str(),
        None => None,
    }
}

/// The number at a key of a table.
fn number_at(table: &Value, key: &str) -> Option<u32>
    ensures { MatchOption result ((n : ℕ) → n < 2 ^ 32 → number_at key.now (view table.now) ≢ Some (pos n))
        (λ n. number_at key.now (view table.now) ≡ Some (pos n)) }
{
    match table.get(key) {
        Some(value) => u32::try_from(value.as_integer()?).ok(),
        None => None,
    }
}

/// The list at a key of a table.
pub(crate) fn list_at<'a>(table: &'a Value, key: &str) -> Option<&'a Vec<Value>>
    ensures { option_map (λ v. array_view v.now) result ≡ list_at key.now (view table.now) }
{
    match table.get(key) {
        Some(value) => value.as_array(),
        None => None,
    }
}

/// Whether a table has so many keys.
fn has_keys(table: &Value, count: usize) -> bool
    ensures { result ≡ has_keys count (view table.now) }
{
    match table.as_table() {
        Some(table) => table.len() == count,
        None => false,
    }
}

/// The prefixes of a list of texts.
fn prefixes(alloc: Global, texts: &[Value]) -> Result<Vec<Prefix>, ConfigurationError>
    ensures { ReadsOrFails (λ ps. ArePrefixes (map view texts.now) ps.items) result }
{
    let mut prefixes = Vec::new(alloc);
    'texts: for value in texts {
        let Some(text) = value.as_str() else {
            return Err(ConfigurationError::BadConfig);
        };
        match Prefix::parse(text.as_bytes()) {
            Ok(prefix) => prefixes.push(prefix)?,
            Err(_) => return Err(ConfigurationError::BadConfig),
        }
    }
    Ok(prefixes)
}

/// The prefixes at a key of a table.
pub(crate) fn prefixes_at(
    alloc: Global,
    table: &Value,
    key: &str,
) -> Result<Vec<Prefix>, ConfigurationError>
    ensures { ReadsOrFails (HasPrefixes key.now (view table.now)) result }
{
    match list_at(table, key) {
        Some(texts) => prefixes(alloc, texts.as_slice()),
        None => Err(ConfigurationError::BadConfig),
    }
}

/// The path at a key of a table.
pub(crate) fn path_at(alloc: Global, table: &Value, key: &str) -> Result<String, ConfigurationError>
    ensures { ReadsOrFails (HasPath key.now (view table.now)) result }
{
    match text_at(table, key) {
        Some(path) => Ok(String::from_str(alloc, path)?),
        None => Err(ConfigurationError::BadConfig),
    }
}

/// The number at a key of a table, where it is in the range.
pub(crate) fn count_at(
    table: &Value,
    key: &str,
    low: u32,
    high: u32,
) -> Result<u32, ConfigurationError>
    ensures { ReadsOrFails (HasCount key.now (view table.now) low high) result }
{
    match number_at(table, key) {
        Some(number) if low <= number && number <= high => Ok(number),
        _ => Err(ConfigurationError::BadConfig),
    }
}

/// The name of a text, under the root if no dot ends it.
fn name(heap: Heap, text: &str) -> Result<Name, ConfigurationError>
    ensures { ReadsOrFails (λ name. name_of_text [] text.now ≡ Ok name) result }
{
    match Name::from_text(heap, text.as_bytes(), &Name::root(heap)) {
        Ok(name) => Ok(name),
        Err(NameError::OutOfMemory) => Err(ConfigurationError::OutOfMemory),
        Err(_) => Err(ConfigurationError::BadConfig),
    }
}

/// The name at a key of a table, under the root if no dot ends it.
pub(crate) fn name_at(heap: Heap, table: &Value, key: &str) -> Result<Name, ConfigurationError>
    ensures { ReadsOrFails (HasName key.now (view table.now)) result }
{
    match text_at(table, key) {
        Some(text) => name(heap, text),
        None => Err(ConfigurationError::BadConfig),
    }
}

/// The settings of a zone by its table.
fn settings(alloc: Global, heap: Heap, zone: &Value) -> Result<ZoneSettings, ConfigurationError>
    ensures { ReadsOrFails (IsSettings (view zone.now)) result }
{
    if !has_keys(zone, ZONE_KEYS) {
        return Err(ConfigurationError::BadConfig);
    }
    Ok(ZoneSettings {
        origin: name_at(heap, zone, "origin")?,
        file: path_at(alloc, zone, "file")?,
        device: path_at(alloc, zone, "device")?,
        snapshot_sectors: count_at(zone, "snapshot_sectors", LEAST_SNAPSHOT, MOST)?,
        journal_sectors: count_at(zone, "journal_sectors", LEAST_JOURNAL, MOST)?,
        keep: count_at(zone, "keep", 0, MOST)?,
        update: prefixes_at(alloc, zone, "update")?,
        transfer: prefixes_at(alloc, zone, "transfer")?,
    })
}

/// Whether two zones have one apex or one device.
fn are_alike(alloc: Global, zone: &ZoneSettings, other: &ZoneSettings) -> Result<bool, AllocError>
    ensures { IfOk result (λ alike. alike ≡ are_alike zone.now other.now) }
{
    Ok(zone.origin == other.origin || is_same_path(alloc, &zone.device, &other.device)?)
}

/// Whether a zone has the apex or the device of one before it.
fn is_double(alloc: Global, zones: &[ZoneSettings], zone: &ZoneSettings) -> Result<bool, AllocError>
    ensures { IfOk result (λ double. double ≡ list_any (λ z. are_alike z zone.now) zones.now) }
{
    'zones: for other in zones {
        if are_alike(alloc, other, zone)? {
            return Ok(true);
        }
    }
    Ok(false)
}

/// The settings of zones by their tables: at most 16, no two with one apex or one device.
fn all_settings(
    alloc: Global,
    heap: Heap,
    tables: &[Value],
) -> Result<Vec<ZoneSettings>, ConfigurationError>
    ensures { ReadsOrFails (λ zones. AreSettings (map view tables.now) zones.items) result }
{
    let mut zones = Vec::new(alloc);
    'zones: for table in tables {
        let zone = settings(alloc, heap, table)?;
        if zones.len() == MOST_ZONES {
            return Err(ConfigurationError::BadConfig);
        }
        let is_second = is_double(alloc, &zones, &zone)?;
        if is_second {
            return Err(ConfigurationError::BadConfig);
        }
        zones.push(zone)?;
    }
    Ok(zones)
}

/// The configuration by its document.
fn configuration_of(
    alloc: Global,
    heap: Heap,
    document: &Value,
) -> Result<Configuration, ConfigurationError>
    ensures { ReadsOrFails (Describes (view document.now)) result }
{
    if !has_keys(document, 2) {
        return Err(ConfigurationError::BadConfig);
    }
    let listen = addresses_at(alloc, document, "listen")?;
    let Some(tables) = list_at(document, "zone") else {
        return Err(ConfigurationError::BadConfig);
    };
    let zones = all_settings(alloc, heap, tables.as_slice())?;
    if zones.is_empty() {
        return Err(ConfigurationError::BadConfig);
    }
    Ok(Configuration { listen, zones })
}

impl Configuration {
    /// Reads a configuration in TOML: its keys are those of `Configuration` and of its zones, `listen` with
    /// an address, a colon and a port as one text, or with a list of 1 to 8 such texts. `BadConfig` comes for
    /// every other text.
    pub fn read(
        alloc: Global,
        heap: Heap,
        octets: &[u8],
    ) -> Result<Configuration, ConfigurationError>
        ensures described { ReadsOrFails (IsDescribedBy octets.now) result }
        ensures valid { IfOk result IsConfiguration }
    {
        let Ok(text) = std::str::from_utf8(octets) else {
            return Err(ConfigurationError::BadConfig);
        };
        match toml::table_from_str(alloc, text) {
            Ok(table) => configuration_of(alloc, heap, &Value::Table(table)),
            Err(error) if error.is_memory() => Err(ConfigurationError::OutOfMemory),
            Err(_) => Err(ConfigurationError::BadConfig),
        }
    }
}
