//! The words of a bank. Rows test which openings are outside the limits, the number of words and the numbers of
//! addresses of a shape, and the numbers and names of refusals.

use rme_words::{Address, Bank, Shape};
use std::process::Abort;
use std::test::Fail;

#[test]
fn a_shape_of_37_words(rt: HostRuntime) -> Result<(), Fail> {
    let shape = Shape::new(1, 1, 1, 1)?;
    assert!(rt; (shape.words(), shape.word(Address::Cell(0, 0))) == (37, 33));
    let bank = Bank::new(rt.alloc(), shape)?;
    assert!(rt; bank.shape().words() == 37);
    Ok(())
}

/// A store, and the exchanges of one node: the second one does not find what it expects.
fn store_and_exchange(rt: &impl Abort, bank: &mut Bank) {
    assert!(rt; bank.shape().leaves == 2);
    let node = Address::Node(0, 1);
    bank.store(Address::Cell(0, 0), 9);
    assert!(rt; (bank.load(Address::Cell(0, 0)), bank.load(Address::Turn(0))) == (9, 0));
    let first = bank.compare_exchange(node, 0, 2);
    let second = bank.compare_exchange(node, 0, 1);
    assert!(rt; (first, second, bank.load(node)) == (0, 2, 2));
}

#[test]
fn a_bank_is_changed(rt: HostRuntime) -> Result<(), Fail> {
    let mut bank = Bank::new(rt.alloc(), Shape::new(1, 1, 1, 1)?)?;
    store_and_exchange(&rt, &mut bank);
    Ok(())
}
