//! Values worked out by hand. Rows test the effect of each operation, the cells that a script names, and which scripts
//! are refused.

use rme_script::{Op, Row, Script, eval, from_slate, slate_words};
use rme_words::Shape;
use std::test::Fail;

const FIVE: [Op; 5] = [
    Op::Set(1, 5),
    Op::Set(0, u64::MAX),
    Op::Add(0, 1),
    Op::Swap(0, 0),
    Op::Copy(1, 1),
];

const FIVE_WORDS: [u64; 24] = [
    1,
    1,
    5,
    1,
    0,
    18446744073709551615,
    2,
    0,
    1,
    4,
    0,
    0,
    3,
    1,
    1,
    0,
    0,
    0,
    0,
    0,
    0,
    0,
    0,
    0,
];

#[test]
fn runs_five_operations(rt: HostRuntime) -> Result<(), Fail> {
    let shape = Shape::new(1, 1, 2, 1)?;
    let script = Script::of(&FIVE);
    script.check(shape)?;
    let mut row = Row::zeros(shape);
    let reply = eval(&script, &mut row);
    assert!(rt; reply == 5);
    assert!(rt; row.len() == 2);
    assert!(rt; row.get(0) == 0);
    assert!(rt; row.get(1) == 5);
    Ok(())
}

#[test]
fn writes_and_reads_slates(rt: HostRuntime) -> Result<(), Fail> {
    let shape = Shape::new(1, 1, 2, 1)?;
    let script = Script::of(&FIVE);
    script.check(shape)?;
    assert!(rt; slate_words(&script) == FIVE_WORDS);
    assert!(rt; from_slate(5, &FIVE_WORDS) == Some(script));
    assert!(rt;
        from_slate(2, &FIVE_WORDS) == Some(Script::of(&[Op::Set(1, 5), Op::Set(0, u64::MAX)]))
    );
    assert!(rt; from_slate(8, &[0; 24]) == Some(Script::of(&[Op::Get(0); 8])));
    assert!(rt; from_slate(9, &[0; 24]) == None);
    Ok(())
}
