//! The close of a service.

ghost use Rattle.std.specs.Prelude.{◌≡◌, ◌+◌, ◌<◌, ◌≤◌, [], ◌++◌, length, vec_capacity};
ghost use Rattle.std.specs.Slots.{slots_items, slots_len, IsFull};
ghost use Rattle.rme_words.specs.Words.{word_count};
ghost use Rattle.rme_service_steps.specs.Layout.{words_of_table, table_size};

use crate::layout::position_of_word;
use crate::rule::{AllParts, TableSeat};
use crate::seat::WorkerSeat;
use crate::word_table::WordTable;
use atomic_table::Closed;
use rme_history::EntryList;
use rme_program::Entry;
use rme_words::Shape;
use std::alloc::Global;

impl WordTable {
    ghost use Rattle.std.specs.Prelude.{◌≡◌, ◌+◌, ◌<◌, ◌≤◌, [], ◌++◌, length, vec_capacity};
    ghost use Rattle.rme_words.specs.Words.{word_count};
    ghost use Rattle.rme_service_steps.specs.Closing.{SeatsAreOfService, parts_given, entries_given, ServiceIsGathered};

    /// Closes the service: appends its words to `words`, and the finished sections of all seats to `history`.
    ///
    /// The seats are this service's, and there is at least one. Both lists have the room, so that no memory is taken.
    pub fn gather(
        self,
        seats: Vec<WorkerSeat>,
        words: Vec<u64>,
        mut history: Vec<Entry>,
    ) -> (Vec<u64>, Vec<Entry>)
        requires ours { SeatsAreOfService self seats.items }
        requires some_seat { 0 < length seats.items }
        requires word_room { length words.items + word_count self.shape ≤ vec_capacity words }
        requires entry_room { length history.items + length (entries_given seats.items) ≤ vec_capacity history }
        ensures { ServiceIsGathered self.shape seats.items words.items history.items result.0.items result.1.items }
    {
        let seat = self.join_all(seats, &mut history);
        let WordTable { table, shape } = self;
        let closed = table.close_with(seat);
        let words = with_bank(words, &closed, shape);
        closed.free();
        (words, history)
    }

    /// Closes the service as `gather` does, and drops the finished sections of all seats.
    pub fn gather_words(self, seats: Vec<WorkerSeat>, words: Vec<u64>) -> Vec<u64>
        requires ours { SeatsAreOfService self seats.items }
        requires some_seat { 0 < length seats.items }
        requires word_room { length words.items + word_count self.shape ≤ vec_capacity words }
        ensures { ServiceIsGathered self.shape seats.items words.items [] result.items (entries_given seats.items) }
    {
        let seat = self.join_seats(seats);
        let WordTable { table, shape } = self;
        let closed = table.close_with(seat);
        let words = with_bank(words, &closed, shape);
        closed.free();
        words
    }

    /// Joins the parts of all seats in one.
    fn join_seats(&self, mut seats: Vec<WorkerSeat>) -> TableSeat
        requires ours { SeatsAreOfService self.now seats.items }
        requires some_seat { 0 < length seats.items }
        ensures table { result.table_id ≡ self.now.table }
        ensures parts { result.me ≡ (record { shape = self.now.shape; parts = parts_given seats.items }, []) }
    {
        let Some(last) = seats.pop() else {
            unreachable!()
        };
        let mut all = last.into_table_seat();
        while let Some(seat) = seats.pop() {
            let other = seat.into_table_seat();
            self.table.shared.join_seat::<AllParts>(&mut all, other);
        }
        all
    }

    /// Joins the parts of all seats in one, and appends their entries to the history.
    fn join_all(&self, mut seats: Vec<WorkerSeat>, history: &mut Vec<Entry>) -> TableSeat
        requires ours { SeatsAreOfService self.now seats.items }
        requires some_seat { 0 < length seats.items }
        requires room { length history.old.items + length (entries_given seats.items) ≤ vec_capacity history.old }
        ensures table { result.table_id ≡ self.now.table }
        ensures parts { result.me ≡ (record { shape = self.now.shape; parts = parts_given seats.items }, []) }
        ensures entries { history.new.items ≡ history.old.items ++ entries_given seats.items }
    {
        let Some(last) = seats.pop() else {
            unreachable!()
        };
        let mut all = last.give_entries(history);
        while let Some(seat) = seats.pop() {
            let other = seat.give_entries(history);
            self.table.shared.join_seat::<AllParts>(&mut all, other);
        }
        all
    }
}

impl WorkerSeat {
    ghost use Rattle.std.specs.Prelude.{◌≡◌, ◌+◌, ◌≤◌, [], ◌++◌, length, vec_capacity};
    ghost use Rattle.rme_service_steps.specs.Rule.{one_part_record};

    /// Only the seat at the table.
    fn into_table_seat(self) -> TableSeat
        ensures table { result.table_id ≡ self.ident.table }
        ensures part { result.me ≡ (one_part_record self.ident.shape self.part, []) }
    {
        let WorkerSeat {
            seat,
            worker: _,
            drafted: _,
            entries: _,
        } = self;
        seat
    }

    /// The seat at the table; appends the entries to the history.
    fn give_entries(self, history: &mut Vec<Entry>) -> TableSeat
        requires { length history.old.items + length self.part.entries ≤ vec_capacity history.old }
        ensures table { result.table_id ≡ self.ident.table }
        ensures part { result.me ≡ (one_part_record self.ident.shape self.part, []) }
        ensures entries { history.new.items ≡ history.old.items ++ self.part.entries }
        ensures room { vec_capacity history.new ≡ vec_capacity history.old }
    {
        let WorkerSeat {
            seat,
            worker: _,
            drafted: _,
            entries,
        } = self;
        put_all(history, &entries);
        seat
    }
}

/// Appends the entries to the history.
fn put_all(history: &mut Vec<Entry>, entries: &EntryList)
    requires { length history.old.items + length entries.now.entries ≤ vec_capacity history.old }
    ensures entries { history.new.items ≡ history.old.items ++ entries.now.entries }
    ensures room { vec_capacity history.new ≡ vec_capacity history.old }
{
    for at in 0..entries.len() {
        let Some(entry) = entries.get(at) else {
            unreachable!();
        };
        history.push_reserved(entry);
    }
}

/// Appends the words of the table to the list, in the order of their numbers.
fn with_bank(mut words: Vec<u64>, closed: &Closed<u8, Global>, shape: Shape) -> Vec<u64>
    requires full { IsFull closed.now.words }
    requires count { slots_len closed.now.words ≡ table_size shape }
    requires room { length words.items + word_count shape ≤ vec_capacity words }
    ensures { result.items ≡ words.items ++ words_of_table shape (slots_items closed.now.words) }
{
    for number in 0..shape.words() {
        words.push_reserved(closed.word(position_of_word(shape, number)));
    }
    words
}
