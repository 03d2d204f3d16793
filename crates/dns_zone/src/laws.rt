//! What the calls of an index do one after the other.
ghost use Rattle.std.specs.Prelude.{◌≡◌, drop, IfOk, OnOk};
ghost use Rattle.std.specs.Option.{option_copied};
ghost use Rattle.dns_names.specs.Name.{Labels};
ghost use Rattle.dns_zone.specs.Zone.{Zone as Stated};
ghost use Rattle.dns_zone.specs.Node.{IsMatch};
ghost use Rattle.dns_zone.specs.Records.{next_after, others, put, records_at, rrset, united};
ghost use Rattle.dns_zone.specs.Run.{matched, reply_of, set_after, replies_of, set_left};

use crate::{Match, Records, ZoneIndex};
use dns_memory::Heap;
use dns_names::{Name, NameRef};
use dns_records::Record;
use std::alloc::AllocError;
use std::marker::Model;

/// A call of an index.
#[derive(Debug, Drop)]
pub enum Command {
    /// Asks for the records that the name owns.
    RecordsAt(Name),
    /// Asks for the records of a name and a type.
    Rrset(Name, u16),
    /// Asks whether the name or one under it owns a record.
    Exists(Name),
    /// Puts the record in.
    Insert(Record),
    /// Takes the record of equal owner, type and data out.
    Remove(Record),
    /// Takes all records of the name out.
    Clear(Name),
    /// Takes all records of the name out but those of the type.
    Alone(Name, u16),
    /// Asks for the first record, or the first after one.
    Walk(Option<Record>),
    /// Asks for the records from a position on.
    From(usize),
    /// Asks what the zone of an apex has for a name.
    Match(Name, Name),
    /// Takes a fork, puts the record into what the fork was taken from, asks there for the records of its
    /// owner, and goes on with the fork.
    Fork(Record),
}

/// What a call answers.
#[derive(Debug, Drop)]
pub enum Reply {
    /// Copies of the records that were asked for, in order.
    Held(Copies),
    /// Whether what was asked for, or was to be taken out, is there.
    Found(bool),
    /// A copy of the record that was asked for, if there is one.
    Next(Option<Record>),
    /// The cut above the name or at it, and copies of its records.
    Cut(Name, Copies),
    /// The name exists: copies of its records.
    Owner(Copies),
    /// The wildcard for the name exists: its closest encloser, and copies of the wildcard's records.
    Wildcard(Name, Copies),
    /// Neither the name nor a wildcard for it exists.
    Nothing,
    /// It is done.
    Done,
}

/// Copies of records.
#[derive(Debug, Drop)]
pub struct Copies {
    items: Vec<Record, Heap>,
}

impl Model for Copies {
    ghost use Rattle.std.specs.Prelude.{List};
    ghost use Rattle.dns_records.specs.Record.{Record as Stated};

    ghost Value = { List Stated };

    ghost view = { λ copies. copies.items.items };
}

impl Copies {
    /// The copies of records.
    fn of(alloc: Heap, records: &[Record]) -> Result<Copies, AllocError>
        ensures { IfOk result (λ copies. copies ≡ records.now) }
    {
        let mut items = Vec::new(alloc);
        for record in records {
            items.push(record.clone()?)?;
        }
        Ok(Copies { items })
    }

    /// The records.
    pub fn records(&self) -> &[Record]
        ensures { result.now ≡ self.now }
    {
        &self.items
    }
}

/// A copy of the record after one, or of the first.
fn next<I: ZoneIndex>(index: &I, after: Option<&Record>) -> Result<Reply, AllocError>
    ensures { IfOk result
        (λ reply. reply ≡ Reply.Next (next_after (option_copied after.entry) (I.records index.now))) }
{
    match index.walk(after) {
        None => Ok(Reply::Next(None)),
        Some(record) => Ok(Reply::Next(Some(record.clone()?))),
    }
}

/// Copies of the records from a position on.
fn copies_from<I: ZoneIndex>(alloc: Heap, index: &I, position: usize) -> Result<Copies, AllocError>
    ensures { IfOk result (λ copies. copies ≡ drop position (I.records index.now)) }
{
    let mut items = Vec::new(alloc);
    for record in Records::from_place(index, position) {
        items.push(record.clone()?)?;
    }
    Ok(Copies { items })
}

/// What is replied of a match.
fn reply_of_match(alloc: Heap, found: Match<'_, '_>) -> Result<Reply, AllocError>
    ensures { IfOk result
        (λ reply. (z : Stated) (name : Labels) → IsMatch z name found.entry → reply ≡ matched z name) }
{
    Ok(match found {
        Match::Cut(cut, owned) => Reply::Cut(cut.to_name(alloc)?, Copies::of(alloc, owned)?),
        Match::Name(owned) => Reply::Owner(Copies::of(alloc, owned)?),
        Match::Wildcard(above, owned) => Reply::Wildcard(
            above.to_name(alloc)?,
            Copies::of(alloc, owned)?,
        ),
        Match::Nothing => Reply::Nothing,
    })
}

/// Puts a copy of the record in.
fn insert_copy<I: ZoneIndex>(index: &mut I, added: &Record) -> Result<(), AllocError>
    ensures { OnOk result (I.records index.new ≡ put added.now (I.records index.old)) }
{
    index.insert(added.clone()?)
}

/// Takes all records of the name out.
fn clear<I: ZoneIndex>(alloc: Heap, index: &mut I, name: &NameRef<'_>) -> Result<(), AllocError>
    ensures { OnOk result (I.records index.new ≡ others (I.records index.old) name.now) }
{
    index.replace_at(name, Vec::new(alloc))
}

/// Takes all records of the name out but those of the type.
fn leave_alone<I: ZoneIndex>(
    alloc: Heap,
    index: &mut I,
    name: &NameRef<'_>,
    rtype: u16,
) -> Result<(), AllocError>
    ensures { OnOk result
        (I.records index.new
        ≡ united (others (I.records index.old) name.now) (rrset (I.records index.old) name.now rtype)) }
{
    let kept = index.rrset(name, rtype).to_vec(alloc)?;
    index.replace_at(name, kept)
}

/// Takes a fork, puts a copy of the record into the index, copies what its owner owns there, and puts the
/// fork in its place.
fn go_on_with_fork<I: ZoneIndex>(
    alloc: Heap,
    index: &mut I,
    added: &Record,
) -> Result<Copies, AllocError>
    ensures left { OnOk result (I.records index.new ≡ I.records index.old) }
    ensures told { IfOk result
        (λ copies. copies ≡ records_at (put added.now (I.records index.old)) added.now.owner) }
{
    let fork = index.fork()?;
    insert_copy(index, added)?;
    let copies = Copies::of(alloc, index.records_at(&added.owner().lend()))?;
    *index = fork;
    Ok(copies)
}

/// Makes one call.
fn call<I: ZoneIndex>(alloc: Heap, index: &mut I, command: &Command) -> Result<Reply, AllocError>
    ensures reply { IfOk result (λ reply. reply ≡ reply_of (I.records index.old) command.now) }
    ensures left { OnOk result (I.records index.new ≡ set_after (I.records index.old) command.now) }
{
    match command {
        Command::RecordsAt(name) => {
            let copies = Copies::of(alloc, index.records_at(&name.lend()))?;
            Ok(Reply::Held(copies))
        }
        Command::Rrset(name, rtype) => {
            let copies = Copies::of(alloc, index.rrset(&name.lend(), *rtype))?;
            Ok(Reply::Held(copies))
        }
        Command::Exists(name) => Ok(Reply::Found(index.exists(&name.lend()))),
        Command::Insert(record) => {
            insert_copy(index, record)?;
            Ok(Reply::Done)
        }
        Command::Remove(record) => Ok(Reply::Found(index.remove(record)?)),
        Command::Clear(name) => {
            clear(alloc, index, &name.lend())?;
            Ok(Reply::Done)
        }
        Command::Alone(name, rtype) => {
            leave_alone(alloc, index, &name.lend(), *rtype)?;
            Ok(Reply::Done)
        }
        Command::Walk(after) => next(index, after.as_ref()),
        Command::From(position) => Ok(Reply::Held(copies_from(alloc, index, *position)?)),
        Command::Match(apex, name) => reply_of_match(
            alloc,
            index.find_node(&apex.lend(), &name.lend()),
        ),
        Command::Fork(record) => {
            let copies = go_on_with_fork(alloc, index, record)?;
            Ok(Reply::Held(copies))
        }
    }
}

/// Makes the calls in order, and answers what they reply and the set that they leave.
pub fn run_index<I: ZoneIndex>(
    alloc: Heap,
    index: I,
    commands: &[Command],
) -> Result<(I, Vec<Reply, Heap>), AllocError>
    ensures replies { IfOk result (λ run. run.1.items ≡ replies_of (I.records index) commands.now) }
    ensures left { IfOk result (λ run. I.records run.0 ≡ set_left (I.records index) commands.now) }
{
    let mut index = index;
    let mut replies = Vec::new(alloc);
    'calls: for command in commands {
        let reply = call(alloc, &mut index, command)?;
        replies.push(reply)?;
    }
    Ok((index, replies))
}
