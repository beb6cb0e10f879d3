// The search, and the route of a label.
ghost use Rattle.std.specs.Prelude.{◌≡◌, length};
ghost use Rattle.search.specs.Answers.{answer, told, fault_number, Promise};
ghost use Rattle.search.specs.Rule.{made};
ghost use Rattle.slice_vec.specs.Tables.{stored};

use crate::answer::{Found, SearchFault};
use crate::best::pick;
use crate::label::Label;
use crate::query::Query;
use crate::rounds::make_labels;
use kinds::Kind;

impl SearchFault {
    pub fn number(self) -> u16
        ensures { result ≡ fault_number self }
    {
        match self {
            SearchFault::Full => 16,
            SearchFault::NoRoute => 17,
        }
    }
}

// The cheapest route, and the shortest of those, from the source to the target over the links whose flag is set.
pub fn search<K: Kind>(
    query: &Query<K>,
    labels: &mut [Label<K::State>],
) -> Result<Found, SearchFault>
    ensures answer { told result ≡ answer K.Kind.model query.now (length labels.old) }
    ensures table { labels.new ≡ stored (made K.Kind.model query.now) labels.old }
    ensures promise { Promise K.Kind.model query.now (length labels.old) result labels.new }
{
    let count = make_labels(query, labels)?;
    pick(query, &labels[..count])
}
