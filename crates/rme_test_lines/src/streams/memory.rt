//! The engines over bytes in memory, as a caller uses them.

ghost use Rattle.std.specs.Prelude.{IfOk};
ghost use Rattle.rme_line_io.specs.Pieces.{lines_of};
ghost use Rattle.rme_line_check.specs.Verdicts.{TranscriptVerdict};
ghost use Rattle.rme_test_lines.specs.InputAnswers.{AreAnswersOfInput};
ghost use Rattle.rme_test_lines.specs.InputTranscripts.{IsTranscript};

use rme_line_check::{Verdict, check_lines};
use rme_line_engine::{run_lines, transcript_lines};
use rme_wire::LineReader;
use std::alloc::Global;
use std::test::Fail;

/// Lines that are commands, except the last one.
pub const LINES: &str = r#"{"cells":1,"do":"open","jobs":10,"locks":["bank"],"workers":2}
{"do":"submit","lock":"bank","script":[],"worker":0}
{"do":"owner","lock":"bank"}
{"do":"no such"}
"#;

/// Their answers.
pub const ANSWERS: &str = r#"{"ok":"open"}
{"number":1,"ok":"submit"}
{"ok":"owner","owner":null}
{"code":1,"error":"BadLine"}
"#;

/// The commands of a crash inside, a worker that waits, a re-entry, and the next entry.
pub const COMMANDS: &str = r#"{"cells":1,"do":"open","jobs":10,"locks":["bank"],"workers":2}
{"do":"submit","lock":"bank","script":[["add",0,5]],"worker":0}
{"do":"walk","until":"entered","worker":0}
{"do":"crash","worker":0}
{"do":"submit","lock":"bank","script":[["add",0,1]],"worker":1}
{"do":"walk","worker":1}
{"do":"restart","worker":0}
{"do":"walk","worker":0}
{"do":"walk","worker":1}
"#;

/// Their transcript.
pub const TRANSCRIPT: &str = r#"{"cells":1,"do":"open","jobs":10,"locks":["bank"],"workers":2}
{"do":"submit","lock":"bank","number":1,"script":[["add",0,5]],"worker":0}
{"do":"note","note":["asked",1],"worker":0}
{"do":"note","note":["entered","bank"],"worker":0}
{"do":"crash","worker":0}
{"do":"submit","lock":"bank","number":1,"script":[["add",0,1]],"worker":1}
{"do":"note","note":["asked",1],"worker":1}
{"do":"note","note":["blocked"],"worker":1}
{"do":"restart","worker":0}
{"do":"note","note":["reentered","bank"],"worker":0}
{"do":"note","note":["finished","bank",1,0,5],"worker":0}
{"do":"note","note":["left","bank"],"worker":0}
{"do":"note","note":["entered","bank"],"worker":1}
{"do":"note","note":["finished","bank",1,1,6],"worker":1}
{"do":"note","note":["left","bank"],"worker":1}
"#;

/// The answers to the lines of an input. The contract follows from that of `run_lines` only.
pub fn answers(alloc: Global, input: &[u8]) -> Result<Vec<u8>, Fail>
    ensures { IfOk result (λ output. AreAnswersOfInput input.now output.items) }
{
    let mut output = Vec::new(alloc);
    let mut lines = LineReader::new(alloc, input)?;
    run_lines(alloc, &mut lines, &mut output)?;
    Ok(output)
}

/// The transcript of a run of these lines. The contract follows from that of `transcript_lines` only.
pub fn transcript(alloc: Global, input: &[u8]) -> Result<Vec<u8>, Fail>
    ensures { IfOk result (λ output. IsTranscript input.now output.items) }
{
    let mut output = Vec::new(alloc);
    let mut lines = LineReader::new(alloc, input)?;
    transcript_lines(alloc, &mut lines, &mut output)?;
    Ok(output)
}

/// The verdict on a transcript. The contract follows from that of `check_lines` only.
pub fn verdict(alloc: Global, input: &[u8]) -> Result<Verdict, Fail>
    ensures { IfOk result (TranscriptVerdict (lines_of input.now)) }
{
    let mut lines = LineReader::new(alloc, input)?;
    Ok(check_lines(alloc, &mut lines)?)
}

/// Each call succeeds when memory is available.
#[test]
fn in_memory(rt: HostRuntime) -> Result<(), Fail> {
    let answered = answers(rt.alloc(), LINES.as_bytes())?;
    assert!(rt; answered.as_slice() == ANSWERS.as_bytes());
    let written = transcript(rt.alloc(), COMMANDS.as_bytes())?;
    assert!(rt; written.as_slice() == TRANSCRIPT.as_bytes());
    assert!(rt; verdict(rt.alloc(), written.as_slice())? == Verdict::Yes);
    Ok(())
}
