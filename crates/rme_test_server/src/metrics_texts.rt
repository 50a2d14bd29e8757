//! The text of a snapshot, as Prometheus' promtool accepts it, and what counters tell.

use rme_metrics::{
    LabelledCount, LogCounters, LogMetrics, MetricsSnapshot, OrderKind, ServerCounters,
    SessionMetrics, StateMetrics, TimeCounter, TimeHistogram, write_metrics,
};
use std::alloc::{AllocError, Global};
use std::test::Fail;

const SAMPLE: &str = r##"# HELP rme_sessions_open Sessions that are open.
# TYPE rme_sessions_open gauge
rme_sessions_open 2
# HELP rme_sessions_total Sessions that began.
# TYPE rme_sessions_total counter
rme_sessions_total 7
# HELP rme_sessions_waiting Sessions whose last line is not answered yet.
# TYPE rme_sessions_waiting gauge
rme_sessions_waiting 1
# HELP rme_orders_total Orders that were answered, and not refused, by their kind.
# TYPE rme_orders_total counter
rme_orders_total{kind="submit"} 5
rme_orders_total{kind="crash_after"} 0
# HELP rme_refusals_total Lines that were refused, by the name of the refusal.
# TYPE rme_refusals_total counter
rme_refusals_total{name="Busy"} 3
# HELP rme_order_seconds Seconds from a line of a session to its answer.
# TYPE rme_order_seconds histogram
rme_order_seconds_bucket{le="0.001"} 1
rme_order_seconds_bucket{le="+Inf"} 3
rme_order_seconds_sum 2.000305
rme_order_seconds_count 3
# HELP rme_log_write_seconds Seconds of a write to a log, with its sync.
# TYPE rme_log_write_seconds histogram
rme_log_write_seconds_bucket{le="0.001"} 1
rme_log_write_seconds_bucket{le="+Inf"} 3
rme_log_write_seconds_sum 18446744073709.551615
rme_log_write_seconds_count 3
# HELP rme_checkpoints_total Checkpoints that this server made.
# TYPE rme_checkpoints_total counter
rme_checkpoints_total 2
# HELP rme_checkpoint_seconds_total Seconds that the checkpoints took.
# TYPE rme_checkpoint_seconds_total counter
rme_checkpoint_seconds_total 1.500000
# HELP rme_jobs_finished_total Jobs that were finished, by their lock.
# TYPE rme_jobs_finished_total counter
rme_jobs_finished_total{lock="a\"\\\né"} 4
# HELP rme_jobs_withdrawn_total Jobs that were withdrawn.
# TYPE rme_jobs_withdrawn_total counter
rme_jobs_withdrawn_total 6
# HELP rme_state_bytes Bytes of the state's file.
# TYPE rme_state_bytes gauge
rme_state_bytes 1024
# HELP rme_epoch The number of the state's epoch.
# TYPE rme_epoch gauge
rme_epoch 3
# HELP rme_workers Workers, by their stance.
# TYPE rme_workers gauge
rme_workers{stance="held"} 1
# HELP rme_owners_down Workers that own a lock while no session has them.
# TYPE rme_owners_down gauge
rme_owners_down 1
"##;

fn one<'a>(
    alloc: Global,
    label: &'a str,
    count: u64,
) -> Result<Vec<LabelledCount<'a>>, AllocError> {
    let mut counts = Vec::new(alloc);
    counts.push(LabelledCount { label, count })?;
    Ok(counts)
}

fn times(alloc: Global, micros: u64) -> Result<TimeHistogram, AllocError> {
    let mut buckets = one(alloc, "0.001", 1)?;
    buckets.push(LabelledCount {
        label: "+Inf",
        count: 3,
    })?;
    Ok(TimeHistogram {
        buckets,
        count: 3,
        micros,
    })
}

#[test]
fn a_snapshot_has_this_text(rt: HostRuntime) -> Result<(), Fail> {
    let alloc = rt.alloc();
    let mut orders = one(alloc, "submit", 5)?;
    orders.push(LabelledCount {
        label: "crash_after",
        count: 0,
    })?;
    let snapshot = MetricsSnapshot {
        sessions: Some(SessionMetrics {
            open: 2,
            begun: 7,
            waiting: 1,
            orders,
            refusals: one(alloc, "Busy", 3)?,
            order_times: times(alloc, 2_000_305)?,
        }),
        log: Some(LogMetrics {
            write_times: times(alloc, u64::MAX)?,
            checkpoints: 2,
            checkpoint_micros: 1_500_000,
        }),
        state: Some(StateMetrics {
            jobs_finished: one(alloc, "a\"\\\n\u{e9}", 4)?,
            jobs_withdrawn: 6,
            file_bytes: 1024,
            epoch: 3,
            workers: one(alloc, "held", 1)?,
            owners_down: 1,
        }),
    };
    let mut text = String::new(alloc);
    write_metrics(&mut text, &snapshot)?;
    assert_eq!(rt; text.as_str(), SAMPLE);
    Ok(())
}

#[test]
fn times_are_counted_by_their_bounds(rt: HostRuntime) -> Result<(), Fail> {
    let counter = TimeCounter::new();
    for micros in [100, 101, 30_000_001] {
        counter.add(micros, 1);
    }
    let told = counter.histogram(rt.alloc())?;
    let first: Vec<u64> = told
        .buckets
        .iter()
        .map(|bucket| bucket.count)
        .collect(rt.alloc())?;
    assert_eq!(rt;
        first.as_slice(),
        [1, 2, 2, 2, 2, 2, 2, 2, 2, 2, 2, 2, 2, 3].as_slice()
    );
    assert_eq!(rt; told.count, 3);
    assert_eq!(rt; told.micros, 30_000_202);
    Ok(())
}

#[test]
fn counters_tell_what_was_added(rt: HostRuntime) -> Result<(), Fail> {
    let counters = ServerCounters::new();
    counters.session_began();
    counters.session_began();
    counters.session_ended();
    counters.lane(None).line_taken();
    counters.lane(Some(17)).line_taken();
    counters.lane(Some(17)).line_done(5);
    counters.lane(Some(1)).order_answered(OrderKind::Submit);
    counters.lane(Some(u32::MAX)).line_refused(26);
    counters.lane(None).line_refused(27);
    let told = counters.told(rt.alloc())?;
    assert_eq!(rt; told.open, 1);
    assert_eq!(rt; told.begun, 2);
    assert_eq!(rt; told.waiting, 1);
    let orders = told.orders.get(1).map(|order| (order.label, order.count));
    assert!(rt; orders == Some(("submit", 1)));
    let refused = told
        .refusals
        .get(25)
        .map(|refusal| (refusal.label, refusal.count));
    assert!(rt; refused == Some(("Overtaken", 1)));
    Ok(())
}

#[test]
fn log_counters_tell_what_was_added(rt: HostRuntime) -> Result<(), Fail> {
    let counters = LogCounters::new();
    counters.written(40, 1);
    counters.written(2, 16);
    counters.replaced(9);
    let told = counters.told(rt.alloc())?;
    assert_eq!(rt; told.write_times.count, 17);
    assert_eq!(rt; told.write_times.micros, 72);
    assert_eq!(rt; told.checkpoints, 1);
    assert_eq!(rt; told.checkpoint_micros, 9);
    Ok(())
}
