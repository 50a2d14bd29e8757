//! The kinds of orders.

/// The kind of an order, by the word of its answer.
#[derive(Clone, Copy, Debug, PartialEq, Eq)]
pub enum OrderKind {
    Attach,
    Submit,
    Resume,
    Enter,
    Commit,
    Withdraw,
    Pending,
    Last,
    CrashAfter,
    Detach,
    Ping,
    Owner,
    Cells,
    Status,
    Hello,
    Create,
    Use,
    Spaces,
    Drop,
}

/// All kinds, in the order of their numbers.
pub const ORDER_KINDS: [OrderKind; 19] = [
    OrderKind::Attach,
    OrderKind::Submit,
    OrderKind::Resume,
    OrderKind::Enter,
    OrderKind::Commit,
    OrderKind::Withdraw,
    OrderKind::Pending,
    OrderKind::Last,
    OrderKind::CrashAfter,
    OrderKind::Detach,
    OrderKind::Ping,
    OrderKind::Owner,
    OrderKind::Cells,
    OrderKind::Status,
    OrderKind::Hello,
    OrderKind::Create,
    OrderKind::Use,
    OrderKind::Spaces,
    OrderKind::Drop,
];

impl OrderKind {
    ghost use Rattle.std.specs.Prelude.{◌≡◌, ◌<◌};
    ghost use Rattle.rme_metrics.specs.OrderKinds.{order_kind_number, order_kind_word};

    /// The word of the kind in answers, as `crash_after`.
    pub fn word(self) -> &'static str
        ensures { result.now ≡ order_kind_word self }
    {
        match self {
            OrderKind::Attach => "attach",
            OrderKind::Submit => "submit",
            OrderKind::Resume => "resume",
            OrderKind::Enter => "enter",
            OrderKind::Commit => "commit",
            OrderKind::Withdraw => "withdraw",
            OrderKind::Pending => "pending",
            OrderKind::Last => "last",
            OrderKind::CrashAfter => "crash_after",
            OrderKind::Detach => "detach",
            OrderKind::Ping => "ping",
            OrderKind::Owner => "owner",
            OrderKind::Cells => "cells",
            OrderKind::Status => "status",
            OrderKind::Hello => "hello",
            OrderKind::Create => "create",
            OrderKind::Use => "use",
            OrderKind::Spaces => "spaces",
            OrderKind::Drop => "drop",
        }
    }

    /// The number of the kind, from 0.
    pub fn number(self) -> usize
        ensures number { result ≡ order_kind_number self }
        ensures small { result < 19 }
    {
        self as usize
    }
}
