//! The lines of samples.

ghost use Rattle.std.specs.Prelude.{◌≡◌, ◌++◌, OnOk, codes, string_bytes};
ghost use Rattle.rme_metrics.specs.Families.{family_name};
ghost use Rattle.rme_metrics.specs.Samples.{fraction_text, histogram_end, histogram_family, labelled_family, labelled_lines, labelled_line, plain_family, seconds_family, seconds_text};

use crate::family::{MetricFamily, push_head};
use crate::label::{LabelledCount, push_label};
use crate::time_counter::TimeHistogram;
use std::alloc::AllocError;

/// The microseconds of a second.
const SECOND: u64 = 1_000_000;

/// Appends a family of one sample.
pub(crate) fn push_plain_family(
    out: &mut String,
    family: MetricFamily,
    value: u64,
) -> Result<(), AllocError>
    ensures { OnOk result (string_bytes out.new ≡ string_bytes out.old ++ plain_family family value) }
{
    push_head(out, family)?;
    let name = family.name();
    write!(out, "{name} {value}\n")
}

/// Appends a family of one sample, a time in microseconds.
pub(crate) fn push_seconds_family(
    out: &mut String,
    family: MetricFamily,
    micros: u64,
) -> Result<(), AllocError>
    ensures { OnOk result (string_bytes out.new ≡ string_bytes out.old ++ seconds_family family micros) }
{
    push_head(out, family)?;
    let name = family.name();
    write!(out, "{name} ")?;
    push_seconds(out, micros)?;
    out.push_str("\n")
}

/// Appends a family with a sample for each value of a label.
pub(crate) fn push_labelled_family(
    out: &mut String,
    family: MetricFamily,
    label: &'static str,
    counts: &[LabelledCount],
) -> Result<(), AllocError>
    ensures { OnOk result (string_bytes out.new ≡ string_bytes out.old
        ++ labelled_family family label.now counts.now) }
{
    push_head(out, family)?;
    push_labelled_lines(out, family.name(), label, counts)
}

/// Appends a histogram of times.
pub(crate) fn push_histogram_family(
    out: &mut String,
    family: MetricFamily,
    times: &TimeHistogram,
) -> Result<(), AllocError>
    ensures { OnOk result (string_bytes out.new ≡ string_bytes out.old ++ histogram_family family times.now) }
{
    push_head(out, family)?;
    push_buckets(out, family, times)?;
    push_histogram_end(out, family, times)
}

/// Appends the last lines of a histogram: the sum and the number of the times.
fn push_histogram_end(
    out: &mut String,
    family: MetricFamily,
    times: &TimeHistogram,
) -> Result<(), AllocError>
    ensures { OnOk result (string_bytes out.new ≡ string_bytes out.old ++ histogram_end family times.now) }
{
    let name = family.name();
    let count = times.count;
    write!(out, "{name}_sum ")?;
    push_seconds(out, times.micros)?;
    write!(out, "\n{name}_count {count}\n")
}

/// Appends the lines of a histogram's buckets.
fn push_buckets(
    out: &mut String,
    family: MetricFamily,
    times: &TimeHistogram,
) -> Result<(), AllocError>
    ensures { OnOk result (string_bytes out.new ≡ string_bytes out.old
        ++ labelled_lines (family_name family ++ codes "_bucket") (codes "le") times.now.buckets.items) }
{
    let mut name = String::from_str(*out.allocator(), family.name())?;
    name.push_str("_bucket")?;
    push_labelled_lines(out, name.as_str(), "le", times.buckets.as_slice())
}

/// Appends a line for each value of a label.
fn push_labelled_lines(
    out: &mut String,
    name: &str,
    label: &str,
    counts: &[LabelledCount],
) -> Result<(), AllocError>
    ensures { OnOk result (string_bytes out.new ≡ string_bytes out.old
        ++ labelled_lines name.now label.now counts.now) }
{
    for counted in counts {
        push_labelled_line(out, name, label, counted)?;
    }
    Ok(())
}

/// Appends a line of a sample with a label.
fn push_labelled_line(
    out: &mut String,
    name: &str,
    label: &str,
    counted: &LabelledCount,
) -> Result<(), AllocError>
    ensures { OnOk result (string_bytes out.new ≡ string_bytes out.old
        ++ labelled_line name.now label.now counted.now) }
{
    let count = counted.count;
    write!(out, "{name}{{{label}=\"")?;
    push_label(out, counted.label)?;
    write!(out, "\"}} {count}\n")
}

/// Appends a time in seconds, with six digits behind the point.
fn push_seconds(out: &mut String, micros: u64) -> Result<(), AllocError>
    ensures { OnOk result (string_bytes out.new ≡ string_bytes out.old ++ seconds_text micros) }
{
    let whole = micros / SECOND;
    write!(out, "{whole}.")?;
    push_fraction(out, micros % SECOND)
}

/// Appends the six digits of a part of a second.
fn push_fraction(out: &mut String, micros: u64) -> Result<(), AllocError>
    ensures { OnOk result (string_bytes out.new ≡ string_bytes out.old ++ fraction_text micros) }
{
    let a = micros / 100_000;
    let b = micros / 10_000 % 10;
    let c = micros / 1_000 % 10;
    let d = micros / 100 % 10;
    let e = micros / 10 % 10;
    let f = micros % 10;
    write!(out, "{a}{b}{c}{d}{e}{f}")
}
