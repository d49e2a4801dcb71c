//! Whether a line is printed.
ghost use Rattle.std.specs.Prelude.{◌≡◌, length, true, Some};
ghost use Rattle.std.specs.List.{list_all};
ghost use Rattle.simd_json.specs.Viewed.{doc};
ghost use Rattle.jpick.specs.Queries.{has_room};
ghost use Rattle.jpick.specs.Rows.{has_needed, has_value, meets};

use crate::fields::Wanted;
use crate::query::Query;
use simd_json::tape::Value;
use simd_json_path::{Filter, Frame};

/// Whether a line with this value passes the filters.
pub fn meets_all(filters: &[Filter<'_>], value: &Value<'_, '_>) -> bool
    ensures { result ≡ list_all (meets (doc value.now)) filters.now }
{
    for filter in filters {
        if !filter.holds(value) {
            return false;
        }
    }
    true
}

/// Whether each query selects a value, if all are needed. The frames may be overwritten.
pub fn has_needed<'q, 't, 'i>(
    wanted: &Wanted<'q>,
    value: Value<'t, 'i>,
    frames: &mut [Frame<'q, 't, 'i>],
) -> bool
    requires { list_all (has_room (length frames.old) (Some (doc value)))
        wanted.now.queries.now ≡ true }
    ensures { result ≡ has_needed wanted.now (doc value.entry) }
{
    !wanted.needs_all || has_all(wanted.queries, value, frames)
}

fn has_all<'q, 't, 'i>(
    queries: &[Query<'q>],
    value: Value<'t, 'i>,
    frames: &mut [Frame<'q, 't, 'i>],
) -> bool
    requires { list_all (has_room (length frames.old) (Some (doc value)))
        queries.now ≡ true }
    ensures { result ≡ list_all (has_value (doc value.entry)) queries.now }
{
    for query in queries {
        if query.first(value, frames).is_none() {
            return false;
        }
    }
    true
}
