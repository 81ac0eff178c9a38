//! The members of an object.

ghost use Rattle.std.specs.Prelude.{◌≡◌, option_map};
ghost use Rattle.serde_json.specs.Find.{get_member};
ghost use Rattle.serde_json.specs.View.{view, items_view, members_view};
ghost use Rattle.row_lines.specs.Spelled.{count_items, count_members};

use serde_json::{Map, Value};

/// The member of this name.
pub(crate) fn member_at<'m>(members: &'m Map<String, Value>, name: &str) -> Option<&'m Value>
    ensures { option_map (λ v. view v.now) result ≡ get_member name.now (members_view members.now.entries) }
{
    members.get(name)
}

/// How many members there are.
#[tactic(auto, using(crate::proofs::Members::count_of_members))]
pub(crate) fn count_members(members: &Map<String, Value>) -> usize
    ensures { result ≡ count_members (members_view members.now.entries) }
{
    members.len()
}

/// How many items there are.
#[tactic(auto, using(crate::proofs::Members::count_of_items))]
pub(crate) fn count_items(items: &Vec<Value>) -> usize
    ensures { result ≡ count_items (items_view items.now.items) }
{
    items.len()
}
