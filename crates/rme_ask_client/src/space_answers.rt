//! What the answer to `spaces` says.

ghost use Rattle.std.specs.Prelude.{IfOk, IfErr};
ghost use Rattle.serde_json.specs.View.{view};
ghost use Rattle.rme_ask_client.specs.Members.{NoneSaidUnless};
ghost use Rattle.rme_ask_client.specs.SpaceAnswers as spec;

use crate::client_error::ClientError;
use crate::members::flag;
use crate::status_answer::{ListItem, list_of};
use serde_json::Value;
use std::alloc::Global;

/// A page of the names of spaces.
#[derive(Drop)]
pub struct SpacesPage {
    /// The names, in order and of any characters.
    pub spaces: Vec<String>,
    /// Whether there are names behind them.
    pub more: bool,
}

/// The page of the answer to `spaces`. `NoMember` if the answer has no list of texts `spaces`, or no truth value `more`;
/// `NoMemory` if memory was refused.
pub fn spaces_page(alloc: Global, value: &Value) -> Result<SpacesPage, ClientError>
    ensures said { IfOk result (spec.SpacesSay (view value.now)) }
    ensures unsaid { IfErr result (NoneSaidUnless spec.SpacesSay (view value.now)) }
{
    Ok(SpacesPage {
        spaces: list_of(alloc, value, "spaces")?,
        more: flag(value, "more")?,
    })
}

impl ListItem for String {
    ghost Says = { spec.NameSays };

    fn of_item(alloc: Global, item: &Value) -> Result<String, ClientError> {
        match item.as_str() {
            Some(name) => Ok(String::from_str(alloc, name)?),
            None => Err(ClientError::NoMember("spaces")),
        }
    }
}
