//! The form of a JSON request: the word of its `do`, and the members that it may have.
ghost use Rattle.std.specs.Prelude.{◌≡◌, is_some};
ghost use Rattle.std.specs.List.{list_any};
ghost use Rattle.serde_json.specs.Find.{get};
ghost use Rattle.serde_json.specs.View.{view};
ghost use Rattle.json_values.specs.Tree.{only};
ghost use Rattle.requests.specs.RequestFaults.{action_in, action_of, body_names, is_word, line_names, word_of};

use super::fault::Fault;
use crate::action::Action;
use crate::member_names::DO;
use crate::table::ACTIONS;
use json_values::only;
use serde_json::Value;

/// What the member `do` asks for.
pub(crate) fn action_in(value: &Value) -> Option<Action>
    ensures { result ≡ action_in (view value.now) }
{
    match value.get(DO) {
        Some(member) => action_of(member.as_str()?),
        None => None,
    }
}

/// What a word of `do` asks for.
fn action_of(text: &str) -> Option<Action>
    ensures { result ≡ action_of text.now }
{
    for action in ACTIONS {
        if has_word(*action, text) {
            return Some(*action);
        }
    }
    None
}

/// Whether `do` asks for the action by this word.
fn has_word(action: Action, text: &str) -> bool
    ensures { result ≡ is_word text.now (word_of action) }
{
    match action.form().word {
        Some(word) => word == text,
        None => false,
    }
}

/// Refuses what is no object, or has a member that the request's line does not have.
pub(crate) fn only_members_of(action: Action, value: &Value) -> Result<(), Fault>
    ensures { result ≡ only Fault.Members (line_names action) (view value.now) }
{
    only(value, action.form().line_members)
}

/// Refuses what is no object, or has a member that the request's body does not have.
pub(crate) fn only_body_members_of(action: Action, value: &Value) -> Result<(), Fault>
    ensures { result ≡ only Fault.Members (body_names action) (view value.now) }
{
    only(value, action.form().body_members)
}

/// Whether some member of one of these names is there.
pub(crate) fn has_some(value: &Value, names: &[&str]) -> bool
    ensures { result ≡ list_any (λ name. is_some (get name.now (view value.now))) names.now }
{
    names.iter().any(|name| value.get(*name).is_some())
}
