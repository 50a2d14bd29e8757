//! Laws of heads and their texts, each the contract of a function that does nothing.

ghost use Rattle.rme_etcd_requests.specs.HeadTexts.{HeadsReadBack, TellsOneHead};

/// The value that is written for a head says that head, and a value says one head. So a comparison of texts compares
/// heads.
pub fn head_is_its_text()
    ensures back { HeadsReadBack }
    ensures one { TellsOneHead }
{}
