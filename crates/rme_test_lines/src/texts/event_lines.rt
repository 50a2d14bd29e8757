//! Event lines are written back unchanged.

use crate::texts::lock_names;
use rme_line_check::event_of_line;
use rme_line_text::push_event;
use rme_wire::{Names, ValueReader};
use std::alloc::Global;
use std::process::Abort;
use std::test::Fail;

/// The lines of a transcript after its opening; and then others, some of which no machine accepts.
const LINES: &[&str] = &[
    r#"{"do":"submit","lock":"a","number":1,"script":[["add",0,5]],"worker":0}"#,
    r#"{"do":"note","note":["asked",1],"worker":0}"#,
    r#"{"do":"note","note":["entered","a"],"worker":0}"#,
    r#"{"do":"crash","worker":0}"#,
    r#"{"do":"submit","lock":"a","number":1,"script":[["add",0,1]],"worker":1}"#,
    r#"{"do":"note","note":["asked",1],"worker":1}"#,
    r#"{"do":"note","note":["blocked"],"worker":1}"#,
    r#"{"do":"restart","worker":0}"#,
    r#"{"do":"note","note":["reentered","a"],"worker":0}"#,
    r#"{"do":"note","note":["finished","a",1,0,5],"worker":0}"#,
    r#"{"do":"note","note":["left","a"],"worker":0}"#,
    r#"{"do":"note","note":["entered","a"],"worker":1}"#,
    r#"{"do":"note","note":["finished","a",1,1,6],"worker":1}"#,
    r#"{"do":"note","note":["left","a"],"worker":1}"#,
    r#"{"do":"withdraw","worker":0}"#,
    r#"{"do":"note","note":["withdrew",1],"worker":0}"#,
    r#"{"do":"note","note":["ready"],"worker":0}"#,
    r#"{"do":"note","note":["quiet"],"worker":0}"#,
    r#"{"do":"crash","worker":4294967295}"#,
    r#"{"do":"note","note":["asked",0],"worker":2}"#,
    r#"{"do":"note","note":["asked",4294967295],"worker":0}"#,
    r#"{"do":"note","note":["finished","a",0,4294967295,18446744073709551615],"worker":0}"#,
    r#"{"do":"submit","lock":"a","number":0,"script":[["get",1],["set",9,18446744073709551615],["copy",3,7],["swap",4294967295,0]],"worker":9}"#,
];

/// The text of a line's event, or an empty text if it has none.
fn written_again(alloc: Global, names: &Names, line: &str) -> Result<String, Fail> {
    let mut text = String::new(alloc);
    if let Some(event) = event_of_line(&mut ValueReader::new(alloc), names, line.as_bytes())? {
        push_event(&mut text, names, event)?;
    }
    Ok(text)
}

#[test]
fn written_back(rt: HostRuntime) -> Result<(), Fail> {
    check_lines(&rt, rt.alloc(), &lock_names(&rt, rt.alloc()))
}

fn check_lines(rt: &impl Abort, alloc: Global, names: &Names) -> Result<(), Fail> {
    for line in LINES {
        let text = written_again(alloc, names, line)?;
        assert!(rt; text.as_str() == *line);
    }
    Ok(())
}
