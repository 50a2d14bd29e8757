//! A transcript, checked against the abstract machine.

use rme::checker::{Verdict, check_lines};
use rme::lines::{LineReader, transcript_lines};
use std::alloc::Global;
use std::test::Fail;

/// The commands of a world.
const ASKED: &str = r#"{"cells":1,"do":"open","jobs":10,"locks":["bank"],"workers":2}
{"do":"submit","lock":"bank","script":[["add",0,5]],"worker":0}
{"do":"walk","worker":0}
"#;

/// The verdict of the abstract machine on a transcript.
fn verdict(alloc: Global, transcript: &[u8]) -> Result<Verdict, Fail> {
    let mut lines = LineReader::new(alloc, transcript)?;
    Ok(check_lines(alloc, &mut lines)?)
}

/// A transcript of a run, and the same with its last line twice: no worker leaves a lock a second time.
#[test]
fn checked_transcript(rt: HostRuntime) -> Result<(), Fail> {
    let mut transcript = Vec::new(rt.alloc());
    let mut asked = LineReader::new(rt.alloc(), ASKED.as_bytes())?;
    transcript_lines(rt.alloc(), &mut asked, &mut transcript)?;
    assert!(rt; verdict(rt.alloc(), transcript.as_slice())? == Verdict::Yes);
    let again = br#"{"do":"note","note":["left","bank"],"worker":0}"#;
    transcript.extend_from_slice(again)?;
    assert!(rt; verdict(rt.alloc(), transcript.as_slice())? == Verdict::No(7));
    Ok(())
}
