//! One pass over the records of a set.
ghost use Rattle.std.specs.Prelude.{◌≡◌, ◌∷◌, ◌+◌, ◌==◌, ◌&&◌, min, List, [], if◌then◌else◌};
ghost use Rattle.dns_records.specs.Record.{Record as Stated};
ghost use Rattle.dns_records.specs.Types.{type_ns, type_soa};
ghost use Rattle.dns_zone.specs.Zone.{is_wildcard};
ghost use Rattle.dns_zone.specs.Survey.{Surveys, is_shared_alias};

use crate::{Records, ZoneIndex};
use dns_names::NameRef;
use dns_records::Record;
use dns_records::types::{CNAME, NS, SOA};

/// What is found of the records so far. The counts stop one past the limits that they are compared with.
#[derive(Clone, Copy)]
pub(crate) struct Survey {
    pub soas: usize,
    pub count: usize,
    pub inside: bool,
    pub shared_alias: bool,
    pub wildcard_ns: bool,
}

/// Whether the record is an NS at a wildcard.
fn is_wildcard_ns(r: &Record) -> bool
    ensures { result ≡ (r.now.rtype == type_ns && is_wildcard r.now.owner) }
{
    r.rtype() == NS && r.owner().lend().begins_with_asterisk()
}

/// Whether the record is a CNAME whose owner owns another record too.
fn is_shared_alias<I: ZoneIndex>(index: &I, r: &Record) -> bool
    ensures { result ≡ is_shared_alias (I.records index.now) r.now }
{
    r.rtype() == CNAME && index.records_at(&r.owner().lend()).len() > 1
}

/// How many SOAs there are with one record more, two standing for any number above one.
fn soas_with(soas: usize, r: &Record) -> usize
    ensures { result ≡ (if r.now.rtype == type_soa then min soas 1 + 1 else soas) }
{
    if r.rtype() == SOA {
        return soas.min(1) + 1;
    }
    soas
}

/// What is found with one record more, of which it is known whether it is an alias that shares its owner.
fn with_record(survey: Survey, r: &Record, apex: &NameRef<'_>, shared: bool) -> Survey
    ensures { (records rest : List Stated)
        → shared ≡ is_shared_alias records r.now
        → Surveys apex.now records (r.now ∷ rest) survey
        → Surveys apex.now records rest result }
{
    let stands_under = r.owner().lend().is_under(apex);
    Survey {
        soas: soas_with(survey.soas, r),
        count: survey.count.min(65536) + 1,
        inside: survey.inside & stands_under,
        shared_alias: survey.shared_alias | shared,
        wildcard_ns: survey.wildcard_ns | is_wildcard_ns(r),
    }
}

/// What all records yield.
pub(crate) fn survey_of<I: ZoneIndex>(index: &I, apex: &NameRef<'_>) -> Survey
    ensures { Surveys apex.now (I.records index.now) [] result }
{
    let mut survey = Survey {
        soas: 0,
        count: 0,
        inside: true,
        shared_alias: false,
        wildcard_ns: false,
    };
    for record in Records::of(index) {
        let shared = is_shared_alias(index, record);
        survey = with_record(survey, record, apex, shared);
    }
    survey
}
