//! What entries leave to those after them.
ghost use Rattle.std.specs.Prelude.{◌≡◌, ◌++◌, OnOk, IfOk};
ghost use Rattle.dns_masterfile.specs.Meaning.{after, at_start, records_in, ttl_in};
ghost use Rattle.dns_masterfile.specs.Contexts.{stated_context, stated_said};

use dns_memory::Heap;
use dns_names::Name;
use dns_records::Record;
use std::alloc::AllocError;

/// What an entry says.
#[derive(Drop)]
pub(crate) enum Said {
    Nothing,
    Origin(Name),
    Default(u32),
    /// A record, and the TTL that is written in it.
    Item(Record, Option<u32>),
}

/// What the entries so far leave.
pub(crate) struct Context {
    pub(crate) origin: Name,
    /// The number of `$TTL`.
    pub(crate) default: Option<u32>,
    /// The last TTL that was written.
    pub(crate) last: Option<u32>,
    /// The owner of the last record.
    pub(crate) owner: Option<Name>,
}

// Written out, so that a proof lets one go by one call (docs/GATE.md).
impl Drop for Context {
    fn drop(self) {
        let Context {
            origin,
            default: _,
            last: _,
            owner,
        } = self;
        drop((origin, owner));
    }
}

/// The context before the first entry.
pub(crate) fn at_start(origin: &Name) -> Result<Context, AllocError>
    ensures { IfOk result (λ c. stated_context c ≡ at_start origin.now) }
{
    Ok(Context {
        origin: origin.clone()?,
        default: None,
        last: None,
        owner: None,
    })
}

/// The TTL of a record in which that one is written.
pub(crate) fn ttl_in(context: &Context, written: Option<u32>) -> Option<u32>
    ensures { result ≡ ttl_in (stated_context context.now) written }
{
    written.or(context.default.or(context.last))
}

/// Takes what an entry says, and appends its record to those before.
pub(crate) fn take_said(
    context: &mut Context,
    said: Said,
    records: &mut Vec<Record, Heap>,
) -> Result<(), AllocError>
    ensures context { OnOk result
        (stated_context context.new ≡ after (stated_context context.old) (stated_said said)) }
    ensures records { OnOk result (records.new.items ≡ records.old.items ++ records_in (stated_said said)) }
{
    match said {
        Said::Nothing => {}
        Said::Origin(name) => context.origin = name,
        Said::Default(ttl) => context.default = Some(ttl),
        Said::Item(record, written) => {
            context.owner = Some(record.owner().clone()?);
            context.last = written.or(context.last);
            records.push(record)?;
        }
    }
    Ok(())
}
