//! The rule of the table: between any two operations, words and records are a world.

use crate::seat_record::SeatRecord;
use atomic_table::{Join, Seat, Shared, Split, TableRule};
use rme_words::Shape;

/// Each worker has one part in all records together, and the words and these parts are a world.
pub struct ServiceRule;

impl TableRule<u8, SeatRecord, Shape> for ServiceRule {
    ghost use Rattle.rme_service_steps.specs.Rule.{TableInvariant, opening_record};

    ghost holds = { TableInvariant };

    ghost first = { opening_record };
}

/// Splits the first part off a record.
pub struct FirstPart;

impl Split<SeatRecord> for FirstPart {
    ghost use Rattle.rme_service_steps.specs.Rule.{other_parts, first_part};

    ghost left = { other_parts };

    ghost right = { first_part };
}

/// Joins the parts of two records.
pub struct AllParts;

impl Join<SeatRecord> for AllParts {
    ghost use Rattle.rme_service_steps.specs.Rule.{all_parts, empty_record};

    ghost both = { all_parts };

    ghost spent = { empty_record };
}

/// The words as threads share them, and the seat of one thread.
pub type SharedWords = Shared<u8, SeatRecord, Shape, ServiceRule>;

pub type TableSeat = Seat<u8, SeatRecord>;
