//! The members of an object, in the order of their keys.

ghost use Rattle.std.specs.Prelude.{◌≡◌, IsSome, OnSome, option_map};
ghost use Rattle.serde_json.specs.Data.{put};
ghost use Rattle.serde_json.specs.Find.{get_member};
ghost use Rattle.rme_line_json.specs.View.{value_view, members_view};

use crate::value::Value;
use std::cmp::Ordering;

/// The member of this name.
pub fn find<'v, 'a>(members: &'v [(&'a str, Value<'a>)], name: &str) -> Option<&'v Value<'a>>
    ensures { option_map (λ v. value_view v.now) result ≡ get_member name.now (members_view members.now) }
{
    let mut at = 0;
    while at < members.len() {
        let member = &members[at];
        if name == member.0 {
            return Some(&member.1);
        }
        at += 1;
    }
    None
}

/// Inserts a value at a key, replacing the one that is there, if any. `None` if memory was refused.
pub fn put<'a>(
    members: &mut Vec<(&'a str, Value<'a>)>,
    key: &'a str,
    value: Value<'a>,
) -> Option<()>
    ensures { OnSome result (members_view members.new.items ≡ put key.now (value_view value.entry)
        (members_view members.old.items)) }
{
    let mut at = 0;
    while at < members.len() {
        match key.cmp(members[at].0) {
            Ordering::Greater => at += 1,
            Ordering::Equal => {
                members[at] = (key, value);
                return Some(());
            }
            Ordering::Less => return members.insert(at, (key, value)).ok(),
        }
    }
    members.push((key, value)).ok()
}
