//! The index of a record in order.
ghost use Rattle.std.specs.Prelude.{◌≡◌, ◌<◌, true, length, slice_get, Some};
ghost use Rattle.dns_zone.specs.Records.{is_ordered, next_after};
ghost use Rattle.dns_zoneindex.specs.Owned.{path_records};

use crate::tree::Tree;
use dns_records::Record;

impl Tree {
    /// How many records are not greater than one, which is looked for by halves.
    pub(crate) fn count_to(&self, after: &Record) -> usize
        requires { is_ordered (path_records self.now) ≡ true }
        ensures { slice_get (path_records self.now) result
            ≡ next_after (Some after.now) (path_records self.now) }
    {
        let mut low = 0;
        let mut high = self.count();
        'places: while low < high {
            let middle = low + (high - low) / 2;
            if self.record(middle).compare(after).is_gt() {
                high = middle;
            } else {
                low = middle + 1;
            }
        }
        low
    }

    /// The record at an index.
    fn record(&self, position: usize) -> &Record
        requires { position < length (path_records self.now) }
        ensures { slice_get (path_records self.now) position ≡ Some result.now }
    {
        &self.run_from(position)[0]
    }
}
