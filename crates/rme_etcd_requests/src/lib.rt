//! The requests that a log in etcd makes, as the bodies of its JSON gateway, and what the answers say.
//!
//! Every change of a log is a transaction on the condition that the log's head has the bytes that the writer saw. The
//! crate does no I/O. It stands on rme_replica, whose `Head` it writes and reads, and on serde_json, base64 and hex;
//! the crate rme_etcd sends the bodies. Its contracts: a body reads back as the transaction of its arguments
//! (`specs/Transactions.antt`), a head is told by its text (`specs/HeadTexts.antt`), and an answer tells `Made` only
//! where it says so (`specs/TransactionAnswers.antt`). Begin with `requests.rt`, then `answers.rt` and `head_codec.rt`.
#![tactic(auto)]

mod answer_members;
mod answers;
mod head_codec;
mod laws;
mod log_keys;
mod operations;
mod requests;

pub use answers::{
    AnswerFault, EtcdRefusal, KeyValue, RangePage, TransactionAnswer, login_token, range_page,
    refusal_of, transaction_answer,
};
pub use head_codec::{head_text, read_head};
pub use laws::head_is_its_text;
pub use log_keys::LogKeys;
pub use requests::{
    KeyRange, RecordKeys, add_request, beat_request, clear_request, create_request, head_request,
    is_request, login_request, page_request, stage_request,
};
