//! What some objects add to a weight.

ghost use Rattle.std.specs.Prelude.{◌≡◌, ◌+◌, ◌≤◌, sum_by};
ghost use Rattle.record_writer.specs.Lengths.{len_of, HaveFewFields};

use collection::Collection;
use record_writer::put_len;

/// A weight, in bytes of records, without that of these objects.
pub fn weight_less(weight: u64, objects: &Collection) -> u64
    requires fields { HaveFewFields objects.now.objects }
    requires weighed { sum_by len_of objects.now.objects ≤ weight }
    ensures { result + sum_by len_of objects.now.objects ≡ weight }
{
    let mut rest = weight;
    for i in 0..objects.len() {
        rest -= put_len(objects.at(i));
    }
    rest
}
