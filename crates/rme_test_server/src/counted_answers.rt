//! What answers count as: the answers of the server's page.

use rme_metrics::OrderKind;
use rme_session_metrics::{CountedAnswer, counted_answer};

#[test]
fn answers_count_as_what_they_say(rt: HostRuntime) {
    let attach = b"{\"number\":0,\"ok\":\"attach\",\"stance\":\"ready\"}\n";
    let enter = b"{\"life\":1,\"number\":1,\"ok\":\"enter\",\"section\":0,\"stance\":\"held\"}\n";
    let crash_after = b"{\"ok\":\"crash_after\"}\n";
    let refused = b"{\"code\":16,\"error\":\"WrongNumber\",\"expected\":2}\n";
    let busy = b"{\"code\":9,\"error\":\"Busy\"}\n";
    assert_eq!(rt;
        counted_answer(attach),
        CountedAnswer::Answered(OrderKind::Attach)
    );
    assert_eq!(rt;
        counted_answer(enter),
        CountedAnswer::Answered(OrderKind::Enter)
    );
    assert_eq!(rt;
        counted_answer(crash_after),
        CountedAnswer::Answered(OrderKind::CrashAfter)
    );
    assert_eq!(rt; counted_answer(refused), CountedAnswer::Refused(16));
    assert_eq!(rt; counted_answer(busy), CountedAnswer::Refused(9));
    assert_eq!(rt;
        counted_answer(b"{\"ok\":\"other\"}\n"),
        CountedAnswer::Uncounted
    );
    assert_eq!(rt;
        counted_answer(b"{\"note\":\"\\\"ok\\\":\\\"ping\\\"\"}\n"),
        CountedAnswer::Uncounted
    );
}
